#![tactic(auto)]

//! Numbers in text: one reader over the radix and the bound, which tells four things apart, and what the rules make of it.
pub mod digit; // digit.rt: the digit value of a byte
pub mod unsigned; // unsigned.rt: numbers of 32 and 16 bits
pub mod signed; // signed.rt: numbers with a sign, displacements, low bits

/// What failed in a number that can't be read.
#[derive(Clone, Copy, Debug, PartialEq, Eq, Hash)]
pub enum Failure {
    /// Nothing after the prefix and an allowed sign.
    NoDigits,
    /// A byte that is no digit of the radix.
    BadDigit,
    /// Too large or too small for the type.
    OutOfRange,
}
