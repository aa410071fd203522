//! A distance for the mover, in decimal and with an optional sign.
ghost use Rattle.std.specs.Prelude.{◌≡◌, ◌^◌};
ghost use Rattle.rules.specs.Number.{signed};

use numeral::signed::read_signed;

/// The number with an optional sign that a text is, -2^31 to 2^31 - 1.
pub fn parse_distance(t: &[u8]) -> Option<i32>
    ensures { result ≡ signed 10 (2 ^ 31) t.now }
{
    read_signed(t, 10, 2147483648).ok()
}
