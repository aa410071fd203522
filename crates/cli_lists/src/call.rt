//! The calls that assemble a script.
ghost use Rattle.std.specs.Prelude.{◌≡◌, ◌<◌, Option, length};
ghost use Rattle.rules.specs.Text.{Text};
ghost use Rattle.rules.specs.Answer.{refused};
ghost use Rattle.answer.specs.Refusal.{number_of, place_of};
ghost use Rattle.cli_run.specs.Input.{Named, IsTable};
ghost use Rattle.cli_lists.specs.Listed.{list_of, list_by};

use answer::Refusal;
use branches::load_branches;
use cli_run::input::Input;

/// A call that assembles a script at a base.
#[derive(Clone, Copy)]
pub enum Call<'a> {
    /// By the station's words.
    Plain(u32),
    /// The same under a branch table, which is refused before all else.
    Under(&'a [u8], u32),
    /// By the manual's words.
    Manual(u32),
}

/// The call at a base, under a branch table if one is named.
pub fn call_of<'a>(base: u32, table: Option<Input<'a>>) -> Call<'a>
    ensures { (t : Option Named) (s : Text) → IsTable t table.entry → list_by result s ≡ list_of t base s }
{
    match table {
        Some(table) => Call::Under(table.contents.front(), base),
        None => Call::Plain(base),
    }
}

/// Why there is no list of a script over the limit, of which only the length is known.
pub fn refuse_long(call: Call<'_>, total: usize) -> Refusal
    ensures { (s : Text) → total ≡ length s → 32768 < length s → list_by call.entry s ≡ refused (number_of result) (place_of result) }
{
    match call {
        Call::Plain(_) => Refusal::LongSource(total),
        Call::Manual(_) => Refusal::LongSource(total),
        Call::Under(names, _) => match load_branches(names) {
            Ok(_) => Refusal::LongSource(total),
            Err(refusal) => refusal,
        },
    }
}
