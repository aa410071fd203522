#![tactic(auto)]

//! The C interface: assembling at a base, and moving. An answer is the refusal's number, 0 for accepted, with its place or the count
//! in a number that the caller lends. include/lagvettu.h declares the same functions. C lends each slice and number apart.
ghost use Rattle.std.specs.Prelude.{◌≡◌};
ghost use Rattle.rules.specs.Assemble.{slices, assemble_answer, assemble_slices};
ghost use Rattle.rules.specs.Relocate.{move_answer, move_slices};
ghost use Rattle.answer.specs.Told.{told_number, told_place};

/// Assembles a source at a base: the list in the first places of the three slices, or refused and nothing written.
#[unsafe(no_mangle)]
pub extern "C" fn lagvettu_assemble(
    source: &[u8],
    base: u32,
    addresses: &mut [u32],
    words: &mut [u16],
    marks: &mut [u8],
    place: &mut usize,
) -> u8
    ensures number { result ≡ told_number (assemble_answer base source.now (slices addresses.old words.old marks.old)) }
    ensures place { place.new ≡ told_place (assemble_answer base source.now (slices addresses.old words.old marks.old)) }
    ensures slices { slices addresses.new words.new marks.new ≡ assemble_slices base source.now (slices addresses.old words.old marks.old) }
{
    let answer = assemble::assemble(source, base, addresses, words, marks);
    answer::tell(answer, place)
}

/// Moves the list in the first `count` places of the three slices, or refuses and changes nothing.
#[unsafe(no_mangle)]
pub extern "C" fn lagvettu_move(
    addresses: &mut [u32],
    words: &mut [u16],
    marks: &[u8],
    count: usize,
    distance: i32,
    place: &mut usize,
) -> u8
    ensures number { result ≡ told_number (move_answer (slices addresses.old words.old marks.now) count distance) }
    ensures place { place.new ≡ told_place (move_answer (slices addresses.old words.old marks.now) count distance) }
    ensures slices { slices addresses.new words.new marks.now ≡ move_slices (slices addresses.old words.old marks.now) count distance }
{
    let moved = relocate::relocate(addresses, words, marks, count, distance);
    answer::tell(moved, place)
}
