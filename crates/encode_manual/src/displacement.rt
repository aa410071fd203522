//! The displacement of a branch or of DBRA, of a recorded label or as written; and where none fits, whether there is one.
ghost use Rattle.std.specs.Prelude.{◌≡◌, ◌||◌, [], ◌∷◌, ◌+◌, ◌<◌};
ghost use Rattle.std.proofs.Math.IntN.{sub_ℕ};
ghost use Rattle.std.specs.Int.Signed.{mag};
ghost use Rattle.rules.specs.Text.{bytes, starts};
ghost use Rattle.manual.specs.Manual.{sixteen_bits};
ghost use Rattle.requests.specs.ManualCall.{fits, listed, signed_digits, displacements};
ghost use Rattle.encode_manual.specs.Displacement.{branching_in, room_for, displacement_in, unfit_of, unfit_fault};

use crate::Fault;
use label::Labels;
use numeral::Failure;
use numeral::signed::read_signed;

// What a displacement has room in.
#[derive(Clone, Copy, Debug, PartialEq, Eq)]
pub enum Room {
    // The low byte of a branch's word; 0 and -1 do not fit there.
    Byte,
    // DBRA's extension word.
    Word,
}

// Why an operand gives no displacement.
#[derive(Clone, Copy, Debug, PartialEq, Eq)]
pub enum Unfit {
    // There is one, but none fits.
    Outside,
    // There is none.
    Nothing,
}

impl Unfit {
    // The fault of an instruction of so many bytes.
    pub fn fault(self, size: u32) -> Fault
        ensures { result ≡ unfit_fault size self }
    {
        match self {
            Unfit::Outside => Fault::OutOfReach(size),
            Unfit::Nothing => Fault::NoEncoding(size),
        }
    }
}

// Too large a number is there all the same.
impl From<Failure> for Unfit {
    ghost from_gives = { λ f u. u ≡ unfit_of f };

    fn from(failure: Failure) -> Unfit {
        match failure {
            Failure::NoDigits | Failure::BadDigit => Unfit::Nothing,
            Failure::OutOfRange => Unfit::Outside,
        }
    }
}

// From the word after an instruction's first to a label.
#[inline(always)]
fn distance(label: u32, address: u32) -> i64
    ensures { result ≡ sub_ℕ label (address + 2) }
{
    i64::from(label) - (i64::from(address) + 2)
}

// How far a displacement is from 0, or from -1 where it is negative. `as` is proved to lose nothing; `unsigned_abs` would serve one of the
// two alone.
#[inline(always)]
fn magnitude(d: i64) -> u64
    ensures { result ≡ mag d }
{
    if d < 0 { (-1 - d) as u64 } else { d as u64 }
}

// Whether a displacement fits.
#[inline(always)]
fn fits(room: Room, d: i64) -> bool
    ensures { result ≡ room_for room (mag d) }
{
    let far = magnitude(d);
    match room {
        Room::Byte => 0 < far && far < 128,
        Room::Word => far < 32768,
    }
}

// A displacement in sixteen bits. `as` narrows, and is proved to lose nothing.
#[inline(always)]
fn sixteen_bits(d: i64) -> u16
    requires { mag d < 32768 }
    ensures { result ≡ sixteen_bits d }
{
    d.rem_euclid(65536) as u16
}

// A displacement that is there.
#[inline(always)]
fn placed(room: Room, d: i64) -> Result<u16, Unfit>
    ensures { result ≡ displacement_in (fits (branching_in room)) (d ∷ []) }
{
    if fits(room, d) {
        Ok(sixteen_bits(d))
    } else {
        Err(Unfit::Outside)
    }
}

// Whether an operand starts with a sign.
#[tactic(auto, unfolding(rules::specs::Text::bytes))]
fn is_signed(s: &[u8]) -> bool
    ensures { result ≡ (starts (bytes "+") s.now || starts (bytes "-") s.now) }
{
    text::starts_with(s, b"+") || text::starts_with(s, b"-")
}

// A displacement as written, a sign and decimal digits: whatever does not fit a word fits nothing.
fn written(room: Room, s: &[u8]) -> Result<u16, Unfit>
    ensures { result ≡ displacement_in (fits (branching_in room)) (listed (signed_digits s.now)) }
{
    if !is_signed(s) {
        return Err(Unfit::Nothing);
    }
    let d = read_signed(s, 10, 32768)?;
    placed(room, i64::from(d))
}

// The displacement that an operand gives: of a recorded label if it fits, else as written. It is `let .. else`, since without a label
// the operand is read all the same, where `?` would answer that there is none.
pub fn parse_displacement(
    labels: &Labels<'_>,
    address: u32,
    room: Room,
    s: &[u8],
) -> Result<u16, Unfit>
    ensures { result ≡ displacement_in (fits (branching_in room)) (displacements labels.now.table address s.now) }
{
    let Some(x) = labels.find(s) else {
        return written(room, s);
    };
    let near = placed(room, distance(x, address));
    if near.is_ok() {
        return near;
    }
    written(room, s).or(Err(Unfit::Outside))
}
