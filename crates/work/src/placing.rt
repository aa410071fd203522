//! Where the output goes: to standard output, or into a file as a whole.
ghost use Rattle.std.specs.Prelude.{◌≡◌, option_map};
ghost use Rattle.work.specs.Placed.{WorksAt};

use crate::performing::perform;
use asked::printing::OUTPUT;
use commandline::Asked;
use outcome::Outcome;
use outcome::opening::Opening;
use outcome::output::Output;
use std::alloc::Global;
use std::io::Write;
use std::rt::Clock;
use wholefile::disk::Disk;
use wholefile::output::WholeFile;

/// What a call came to, and the disk as it is then.
#[derive(Drop)]
pub struct Ended<D> {
    pub outcome: Outcome,
    pub disk: D,
}

/// The work that is asked for; `out` is standard output.
pub(crate) fn work_at<C: Clock, F: Opening, D: Disk, O: Output, E: Write>(
    clock: &C,
    alloc: Global,
    files: &F,
    asked: &Asked<'_>,
    disk: D,
    out: &mut O,
    errors: &mut E,
) -> Ended<D>
    ensures { WorksAt (option_map (λ s. s.now) asked.now.output) (λ n. F.holds files.now n) asked.now disk result.disk (λ d. D.settled d) (λ d. D.stays d) (λ d. D.known d) (λ s r. O.puts out.old out.new s r) (out.new ≡ out.old) (E.contents errors.old) (E.contents errors.new) result.outcome }
{
    match asked.output {
        None => {
            let outcome = perform(clock, alloc, files, asked, OUTPUT, out, errors);
            Ended { outcome, disk }
        }
        Some(path) => {
            let mut file = WholeFile { disk, alloc, path };
            let outcome = perform(clock, alloc, files, asked, path, &mut file, errors);
            let disk = file.disk;
            Ended { outcome, disk }
        }
    }
}
