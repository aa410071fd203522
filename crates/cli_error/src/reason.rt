//! Why the system failed, in its own words.
ghost use Rattle.std.specs.Prelude.{◌≡◌};
ghost use Rattle.rules.specs.Text.{starts};
ghost use Rattle.cli_error.specs.Reason.{mark, reason_of};

use text::starts_with;

// What stands in front of the number begins here.
#[tactic(auto, unfolding(crate::specs::Reason::mark, rules::specs::Text::bytes))]
fn starts_mark(t: &[u8]) -> bool
    ensures { result ≡ starts mark t.now }
{
    starts_with(t, b" (os error ")
}

/// The words of an error that std shows, without the number after them: `File exists` of `File exists (os error 17)`.
#[tactic(auto, using(crate::proofs::Marks::no_mark_last, crate::proofs::Marks::no_mark_at_all))]
pub fn reason_of(shown: &[u8]) -> &[u8]
    ensures { result.now ≡ reason_of shown.now }
{
    for i in (0..shown.len()).rev() {
        if starts_mark(&shown[i..]) {
            return &shown[..i];
        }
    }
    shown
}
