//! The digit that a byte stands for, worked out from the byte.
ghost use Rattle.std.specs.Prelude.{◌≡◌};
ghost use Rattle.rules.specs.Number.{digit_value};

/// The digit value of a byte, 255 for none: no digit of any radix, so that one comparison with the radix tells.
// How far the byte is past the first of a run, modulo 256, says by one comparison whether it is in the run; `| 32` makes a capital
// letter small, and no other byte a letter.
#[tactic(auto, using(crate::proofs::Formula::decimal, crate::proofs::Formula::letter, crate::proofs::Formula::none))]
pub fn digit_value(b: u8) -> u8
    ensures { result ≡ digit_value b }
{
    let decimal = b.wrapping_sub(b'0');
    if decimal < 10 {
        return decimal;
    }
    let letter = (b | 32).wrapping_sub(b'a');
    if letter < 6 {
        return 10 + letter;
    }
    255
}
