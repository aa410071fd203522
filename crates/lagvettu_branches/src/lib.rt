#![tactic(auto)]

//! The C interface of the calls under a branch table, in an archive of its own: so no second caller takes from the calls without one
//! what the compiler inlines there. An answer is as in `lagvettu`; include/lagvettu.h declares them. C lends each slice and number apart:
//! hence so many parameters.
ghost use Rattle.std.specs.Prelude.{◌≡◌};
ghost use Rattle.rules.specs.Assemble.{slices};
ghost use Rattle.requests.specs.Branches.{assemble_under_answer, assemble_under_slices, explain_under};
ghost use Rattle.answer.specs.Told.{told_number, told_place};
ghost use Rattle.explain.specs.Called.{Explains};

/// Assembles a source at a base under a branch table, which is refused before all else: the list in the first places of the three
/// slices, or refused and nothing written.
#[unsafe(no_mangle)]
pub extern "C" fn lagvettu_assemble_branches(
    names: &[u8],
    source: &[u8],
    base: u32,
    addresses: &mut [u32],
    words: &mut [u16],
    marks: &mut [u8],
    place: &mut usize,
) -> u8
    ensures number { result ≡ told_number (assemble_under_answer names.now base source.now (slices addresses.old words.old marks.old)) }
    ensures place { place.new ≡ told_place (assemble_under_answer names.now base source.now (slices addresses.old words.old marks.old)) }
    ensures slices { slices addresses.new words.new marks.new ≡ assemble_under_slices names.now base source.now (slices addresses.old words.old marks.old) }
{
    let answer = assemble::assemble_branches(names, source, base, addresses, words, marks);
    answer::tell(answer, place)
}

/// Says why a line, from 1, of a source at a base has no word under a branch table, which is refused before all else: its verdict's
/// number in `verdict`. Where it is refused `verdict` is 255 and `place` has the refusal's, else 0.
#[tactic(auto, using(explain::proofs::Called::explains_told))]
#[unsafe(no_mangle)]
pub extern "C" fn lagvettu_explain_branches(
    names: &[u8],
    source: &[u8],
    base: u32,
    line: usize,
    verdict: &mut u8,
    place: &mut usize,
) -> u8
    ensures { Explains (explain_under names.now base source.now line) result verdict.new place.new }
{
    let answer = explain::explain_branches(names, source, base, line);
    explain::tell(answer, verdict, place)
}
