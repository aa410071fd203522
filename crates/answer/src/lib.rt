#![tactic(auto)]

//! What a call answers: what was asked for, or why it is refused.
ghost use Rattle.std.specs.Prelude.{◌≡◌, ◌≤◌, length};
ghost use Rattle.std.specs.Bool.{OnFalse};
ghost use Rattle.rules.specs.Assemble.{slices, short};
ghost use Rattle.answer.specs.Refusal.{answer_of};
ghost use Rattle.answer.specs.Told.{told_number, told_place};

/// Why a call is refused, with its place; indices and offsets are from 0.
#[derive(Clone, Copy, Debug, PartialEq, Eq, Hash)]
pub enum Refusal {
    /// A source of more than 32,768 bytes; the place is how many it has.
    LongSource(usize),
    /// A byte over 127; its index.
    HighByte(usize),
    /// More than 4,096 lines; how many there are.
    ManyLines(usize),
    /// A base of 2^30 or more.
    HighBase,
    /// An address of 2^30 or more after a line; the line, from 1.
    HighAddress(usize),
    /// A new label where 256 are recorded; its line, from 1.
    ManyLabels(usize),
    /// A lent slice shorter than the count needed; that count.
    ShortSlice(usize),
    /// A distance outside ±(2^30 − 1).
    FarDistance,
    /// A count over the length of a lent slice; the count.
    ShortList(usize),
    /// A mark over 3, a 2 with no 3 after it or a 3 with no 2 before it; its index.
    BadMark(usize),
    /// An address that would move below 0 or above 2^30 + 1; its index.
    OutsideAddress(usize),
    /// No label at the address or below it.
    NoLabelNear,
    /// A line that does not exist or is never read; the line.
    NoSuchLine(usize),
    /// An instruction without an encoding in the manual; its line, from 1.
    NoEncoding(usize),
    /// An instruction whose only fault is a displacement out of range; its line, from 1.
    OutOfReach(usize),
    /// A cut, missing or unknown command in a branch table; its offset.
    BadCommand(usize),
    /// A branch name that a table may not give; its row's offset.
    BadBranchName(usize),
    /// A lent slice too short for the tidy copy; the length needed.
    LongCopy(usize),
    /// An address that is odd or above 16,382 in a list to run; its index.
    Misplaced(usize),
    /// More than 1,000,000 sources in a sheet; the place is that limit.
    ManySources,
    /// A total above 2^33 that is handed in.
    HighTotal,
}

impl Refusal {
    ghost use Rattle.answer.specs.Refusal.{number_of, place_of};

    /// The refusal's number, from 1 on.
    pub fn number(self) -> u8
        ensures { result ≡ number_of self }
    {
        match self {
            Refusal::LongSource(_) => 1,
            Refusal::HighByte(_) => 2,
            Refusal::ManyLines(_) => 3,
            Refusal::HighBase => 4,
            Refusal::HighAddress(_) => 5,
            Refusal::ManyLabels(_) => 6,
            Refusal::ShortSlice(_) => 7,
            Refusal::FarDistance => 8,
            Refusal::ShortList(_) => 9,
            Refusal::BadMark(_) => 10,
            Refusal::OutsideAddress(_) => 11,
            Refusal::NoLabelNear => 12,
            Refusal::NoSuchLine(_) => 13,
            Refusal::NoEncoding(_) => 14,
            Refusal::OutOfReach(_) => 15,
            Refusal::BadCommand(_) => 16,
            Refusal::BadBranchName(_) => 17,
            Refusal::LongCopy(_) => 18,
            Refusal::Misplaced(_) => 19,
            Refusal::ManySources => 20,
            Refusal::HighTotal => 21,
        }
    }

    /// The refusal's place, 0 for a kind that has none.
    pub fn place(self) -> usize
        ensures { result ≡ place_of self }
    {
        match self {
            Refusal::HighBase | Refusal::FarDistance | Refusal::NoLabelNear | Refusal::HighTotal =>
                0,
            Refusal::ManySources => 1_000_000,
            Refusal::LongSource(place)
            | Refusal::HighByte(place)
            | Refusal::ManyLines(place)
            | Refusal::HighAddress(place)
            | Refusal::ManyLabels(place)
            | Refusal::ShortSlice(place)
            | Refusal::ShortList(place)
            | Refusal::BadMark(place)
            | Refusal::OutsideAddress(place)
            | Refusal::NoSuchLine(place)
            | Refusal::NoEncoding(place)
            | Refusal::OutOfReach(place)
            | Refusal::BadCommand(place)
            | Refusal::BadBranchName(place)
            | Refusal::LongCopy(place)
            | Refusal::Misplaced(place) => place,
        }
    }
}

/// An answer as C gets it: 0 with the count in `place`, or a refusal's number with its place there.
pub fn tell(answer: Result<usize, Refusal>, place: &mut usize) -> u8
    ensures number { result ≡ told_number (answer_of answer) }
    ensures place { place.new ≡ told_place (answer_of answer) }
{
    match answer {
        Ok(count) => {
            *place = count;
            0
        }
        Err(refusal) => {
            *place = refusal.place();
            refusal.number()
        }
    }
}

/// Whether a slice is shorter than `count`.
// The slices and `count` side by side, as C lends them.
#[tactic(auto, unfolding(rules::specs::Assemble::short))]
pub fn is_short(addresses: &[u32], words: &[u16], marks: &[u8], count: usize) -> bool
    ensures short { result ≡ short (slices addresses.now words.now marks.now) count }
    ensures addresses { OnFalse result (count ≤ length addresses.now) }
    ensures words { OnFalse result (count ≤ length words.now) }
    ensures marks { OnFalse result (count ≤ length marks.now) }
{
    addresses.len() < count || words.len() < count || marks.len() < count
}
