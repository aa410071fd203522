//! Lists as texts, a line for each word.
ghost use Rattle.listing.specs.RoundTrip.{WrittenIsRead, ReadIsWritten, BadIsFirstWrong};
ghost use Rattle.promises_texts.specs.Examples.{ListExamples, MoveExamples};

/// The text of a list, of addresses of 32 bits, words of 16 and marks below 10, is read as that list, if there is room for it.
#[tactic(auto, using(listing::proofs::RoundTrip::written_is_read))]
pub fn written_is_read()
    ensures { WrittenIsRead }
{}

/// A text that is read as a list is, byte for byte, the text that is written of that list: no other spelling of a list is read.
#[tactic(auto, using(listing::proofs::RoundTrip::read_is_written))]
pub fn read_is_written()
    ensures { ReadIsWritten }
{}

/// Where a text is no list the answer has the number, from 1, of its first wrong line: the lines before it are a list's, it is there, and it is
/// no place's line or there is no room for it.
#[tactic(auto, using(listing::proofs::FirstWrong::bad_is_first_wrong))]
pub fn bad_is_first_wrong()
    ensures { BadIsFirstWrong }
{}

/// Lists, refusals and texts that are no lists, byte for byte.
#[tactic(auto, using(listing::proofs::Examples::examples))]
pub fn list_examples()
    ensures { ListExamples }
{}

/// What `movelist` prints, byte for byte: a list moved there and back, a pair of words, each refusal, and texts that are no lists.
#[tactic(auto, using(station::proofs::Examples::examples))]
pub fn move_examples()
    ensures { MoveExamples }
{}
