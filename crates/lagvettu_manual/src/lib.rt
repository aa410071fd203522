#![tactic(auto)]

//! The C interface of the manual's own words, in an archive of its own: so no second caller of what it stands on takes from the other
//! calls what the compiler inlines there. An answer is as in `lagvettu`; include/lagvettu.h declares it. C lends
//! each slice and number apart.
ghost use Rattle.std.specs.Prelude.{◌≡◌};
ghost use Rattle.rules.specs.Assemble.{slices};
ghost use Rattle.requests.specs.ManualAssemble.{manual_answer, manual_slices};
ghost use Rattle.answer.specs.Told.{told_number, told_place};

/// Assembles a source at a base by the manual's own words: the list in the first places of the three slices, or refused and nothing
/// written.
#[unsafe(no_mangle)]
pub extern "C" fn lagvettu_assemble_manual(
    source: &[u8],
    base: u32,
    addresses: &mut [u32],
    words: &mut [u16],
    marks: &mut [u8],
    place: &mut usize,
) -> u8
    ensures number { result ≡ told_number (manual_answer base source.now (slices addresses.old words.old marks.old)) }
    ensures place { place.new ≡ told_place (manual_answer base source.now (slices addresses.old words.old marks.old)) }
    ensures slices { slices addresses.new words.new marks.new ≡ manual_slices base source.now (slices addresses.old words.old marks.old) }
{
    let answer = assemble::assemble_manual(source, base, addresses, words, marks);
    answer::tell(answer, place)
}
