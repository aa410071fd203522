//! The second pass of the manual's call: each line's code is kept when it is looked for a fault, and nothing is written before that.
ghost use Rattle.std.specs.Prelude.{◌≡◌, ◌≤◌, ◌*◌, ◌<◌, ◌^◌, length};
ghost use Rattle.rules.specs.Assemble.{slices, write_list};
ghost use Rattle.requests.specs.ManualCall.{manual_size};
ghost use Rattle.requests.specs.ManualAssemble.{encoded_manual};
ghost use Rattle.answer.specs.Refusal.{answer_of};
ghost use Rattle.first.specs.Pass.{pass_in, HoldsBy};
ghost use Rattle.assemble.specs.Assembled.{called};

use crate::{Call, LONG_CELLS, SHORT_CELLS};
use answer::Refusal;
use emit::Encoding;
use emit::places::Places;
use first::{Pass, Sizing};
use label::Labels;

/// The manual's sizes and words: `first::first_pass::<Manual>` goes by its sizes.
// No `==`: it has one value.
#[derive(Clone, Copy)]
pub struct Manual;

// The second pass, with cells for the codes.
// The three slices side by side, as C lends them, here and in `second_pass`.
fn coded_pass<const CODES: usize>(
    labels: &Labels<'_>,
    cells: &[u32],
    pass: Pass,
    addresses: &mut [u32],
    words: &mut [u16],
    marks: &mut [u8],
) -> Result<usize, Refusal>
    requires holds { HoldsBy manual_size labels.now cells.now pass }
    requires codes { length cells.now ≤ CODES }
    requires small { CODES < 2 ^ 32 }
    ensures answer { answer_of result ≡ called (encoded_manual (pass_in labels.now cells.now pass)) (slices addresses.old words.old marks.old) }
    ensures slices { slices addresses.new words.new marks.new ≡ write_list (encoded_manual (pass_in labels.now cells.now pass)) (slices addresses.old words.old marks.old) }
{
    let mut codes = [0; CODES];
    let count = emit::codes::find_fault(labels, cells, &mut codes, pass)?;
    if answer::is_short(addresses, words, marks, count) {
        return Err(Refusal::ShortSlice(count));
    }
    let mut places = Places::new(addresses, words, marks);
    let words = Encoding::Kept(&codes);
    let count = emit::emit_words(words, labels, cells, pass, &mut places);
    Ok(count)
}

impl Call for Manual {
    type Sizes = Manual;

    ghost list = { λ _. encoded_manual };

    fn second_pass(
        &self,
        labels: &Labels<'_>,
        cells: &[u32],
        pass: Pass,
        addresses: &mut [u32],
        words: &mut [u16],
        marks: &mut [u8],
    ) -> Result<usize, Refusal> {
        if cells.len() <= SHORT_CELLS {
            coded_pass::<SHORT_CELLS>(labels, cells, pass, addresses, words, marks)
        } else {
            coded_pass::<LONG_CELLS>(labels, cells, pass, addresses, words, marks)
        }
    }
}

impl Sizing for Manual {
    ghost use Rattle.assemble.specs.ManualSizes.{manual_small};

    ghost sizes = { manual_size };

    fn text_size(t: &[u8]) -> u32 {
        encode_manual::manual_size(t)
    }

    ghost small = { manual_small };
}
