#![tactic(auto)]

//! What is promised of numbers in text: which of four answers a text has, and what a line does with it.
ghost use Rattle.promises.specs.Readings.{ReadingsMean, SignsNotAllowed, LinesPassOn, ReadingExamples};
ghost use Rattle.promises.specs.Digits.{DigitsAreTheTables};

/// A text is answered exactly so: no digits if nothing follows its prefix and an allowed sign; else a bad digit if any byte there is no
/// digit of the radix; else out of range if the value of the digits is not one of the type's; else it is read with that value. A prefix
/// `$` or `0x` makes the radix 16, else it is 10; `+` is allowed, and `-` in a signed type. A type's values are those below its bound,
/// from 0 on, and in a signed type from minus the bound on.
///
/// That holds after the prefix for every radix and bound, of a signed type above 0, and with it for the types of 32 and 16 bits unsigned
/// and 8 signed. In the places that ask: a directive's missing piece has no digits; an operand is an immediate if it has `#` in front,
/// and a branch's number if it starts with a sign, being then decimal, signed, of 8 bits and without a prefix; else it is not asked.
#[tactic(auto, using(promises::proofs::Readings::readings_mean))]
pub fn readings_mean()
    ensures { ReadingsMean }
{}

/// A sign that stands where none is allowed, a `-` in an unsigned type or a second sign as in `+-1`, is a bad digit: after the prefix,
/// in every radix up to 16.
#[tactic(auto, using(promises::proofs::Readings::signs_not_allowed))]
pub fn signs_not_allowed()
    ensures { SignsNotAllowed }
{}

/// What a line does fits what is said of its number. An ORG's address and a DC's value are the number that was read; an ORG without an
/// address has a number that failed; a DC or DS without a value has one that failed, or none; of any other line no number is said.
#[tactic(auto, using(promises::proofs::Directives::lines_pass_on))]
pub fn lines_pass_on()
    ensures { LinesPassOn }
{}

/// Texts at the edges have the answers that stand beside them: of 32 bits, where `0x` has no digits, `0X1` a bad digit, `4294967296` is
/// out of range and `$+fF` is 255; of immediates of 16 and 8 bits; and of lines, where `X: DC.L: 5` has no digits and `DS.L 5` no number.
#[tactic(auto, using(promises::proofs::Examples::reading_examples))]
pub fn reading_examples()
    ensures { ReadingExamples }
{}

/// The value of each byte below 128 as a digit is its entry in a table of 128 that is written out, 0 to 9 for `0` to `9`, 10 to 15 for
/// `A` to `F` and for `a` to `f`, and 255 for all others; the value of every byte from 128 on is 255.
#[tactic(auto, using(promises::proofs::Digits::digits_are_the_tables))]
pub fn digits_are_the_tables()
    ensures { DigitsAreTheTables }
{}
