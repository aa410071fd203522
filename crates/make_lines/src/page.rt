//! The printout of a script.
ghost use Rattle.std.specs.Prelude.{◌≡◌, ◌≤◌, MatchResult, length as len};
ghost use Rattle.outcome.specs.Made.{made};
ghost use Rattle.outcome.specs.Outcome.{NotMade};
ghost use Rattle.station.specs.Puts.{Puts};
ghost use Rattle.printout.specs.Printout.{printout_of};
ghost use Rattle.make_lines.specs.Lines.{lent_of, list_made};

use crate::Printing;
use crate::script::{long_script, under_head};
use answer::Refusal;
use outcome::Unmade;
use outcome::making::{MakeNamed, Part, stop_of};
use printout::{PRINTOUT, put_printout};
use rules::MAX_SOURCE;
use station::input::Input;
use station::{SCRIPT, TABLE};
use std::alloc::Global;

// Puts the printout at the front.
#[tactic(auto, unfolding(crate::specs::Lines::lent_of))]
fn put_page(work: &Printing, table: &[u8], source: &[u8], room: &mut [u8]) -> Result<usize, Refusal>
    requires { 401410 ≤ len room.old }
    ensures { Puts (printout_of (lent_of work.now.lent table.now) work.now.base source.now) result room.old room.new }
{
    if work.lent {
        put_printout(Some(table), source, work.base, room)
    } else {
        put_printout(None, source, work.base, room)
    }
}

// The printout of a script that is not too long.
fn page_text(
    alloc: Global,
    work: &Printing,
    name: &str,
    table: &[u8],
    source: &[u8],
) -> Result<Vec<u8>, Unmade>
    ensures { MatchResult result (λ v. list_made work.now name.now table.now source.now ≡ made v.items) (NotMade (list_made work.now name.now table.now source.now)) }
{
    let mut room = [0u8; PRINTOUT];
    match put_page(work, table, source, &mut room) {
        Ok(n) => match under_head(alloc, work.headed, name, &room[..n]) {
            Ok(text) => Ok(text),
            Err(_) => Err(Unmade::NoMemory),
        },
        Err(refusal) => Err(Unmade::Stopped(stop_of(refusal))),
    }
}

impl MakeNamed<{ SCRIPT }> for Printing {
    ghost promised = { λ s n a b. list_made s n a b };

    fn make_named(
        &self,
        alloc: Global,
        name: &str,
        table: &[u8; TABLE],
        branches: Input,
        front: &[u8; SCRIPT],
        input: Input,
    ) -> Result<Part, Unmade> {
        let table = &table[..branches.total.min(TABLE)];
        if MAX_SOURCE < input.total {
            let refusal = long_script(self.lent, table, input.total);
            return Err(Unmade::Stopped(stop_of(refusal)));
        }
        match page_text(alloc, self, name, table, &front[..input.total]) {
            Ok(text) => Ok(Part {
                text,
                accepted: true,
            }),
            Err(e) => Err(e),
        }
    }
}
