//! What the arguments of `plantsheet` say: `-t` and a sheet's name, as often as there are any.
ghost use Rattle.std.specs.Prelude.{◌≡◌};
ghost use Rattle.rules.specs.Text.{bytes, same};
ghost use Rattle.sheettext.specs.Arguments.{no_argument, with_argument, is_whole};

use text::starts_with;

/// The arguments so far.
// Two flags, since neither follows from the other: after a wrong argument a name may be due or not.
#[derive(Clone, Copy, Debug, PartialEq, Eq, Hash)]
pub struct Given {
    /// The last one was `-t`: a sheet's name is due.
    pub due: bool,
    /// One stands where `-t` is asked for, and is another.
    pub wrong: bool,
}

/// Before the first.
// By hand: both flags are shown, as the specs' `no_argument` shows them.
pub fn no_argument() -> Given
    ensures { result ≡ no_argument }
{
    Given {
        due: false,
        wrong: false,
    }
}

// Whether an argument is `-t`. No `==`, as in `station`.
fn is_sheet_option(t: &[u8]) -> bool
    ensures { result ≡ same t.now (bytes "-t") }
{
    t.len() == 2 && starts_with(t, b"-t")
}

/// After one more argument.
pub fn with_argument(given: Given, t: &[u8]) -> Given
    ensures { result ≡ with_argument given t.now }
{
    if given.due {
        return Given {
            due: false,
            wrong: given.wrong,
        };
    }
    if is_sheet_option(t) {
        return Given {
            due: true,
            wrong: given.wrong,
        };
    }
    Given {
        due: true,
        wrong: true,
    }
}

/// Whether the arguments are what `plantsheet` takes.
#[tactic(auto, unfolding(crate::specs::Arguments::is_whole))]
pub fn is_whole(given: Given) -> bool
    ensures { result ≡ is_whole given }
{
    !given.wrong && !given.due
}
