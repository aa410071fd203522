#![tactic(auto)]

//! The bench's machine as definitions: its forms with their words, its state, what a step does, and a run stand in specs/. Here
//! are the types that its code shares with them.

/// The bytes of memory.
pub const MEMORY: usize = 16384;

/// The forms that are run, those of the stations' call that are proved equal to the manual's, with the numbers that stand in the word: registers, source
/// first, immediate data, and a branch's condition and displacement as bits.
// The definitions that the promises cite read a condition as its four bits, so it is no enum.
#[derive(Clone, Copy, Debug, PartialEq, Eq, Hash)]
pub enum Form {
    /// NOP.
    Nop,
    /// MOVEQ of a byte to Dm.
    Moveq(usize, usize),
    /// MOVE.W Dn,Dm.
    MoveWord(usize, usize),
    /// MOVE.L (An),Dm.
    Load(usize, usize),
    /// MOVE.L Dn,(Am).
    Store(usize, usize),
    /// ADD.W Dn,Dm.
    Add(usize, usize),
    /// SUB.W Dn,Dm.
    Sub(usize, usize),
    /// CMP.W Dn,Dm.
    Cmp(usize, usize),
    /// MULS.W Dn,Dm.
    Muls(usize, usize),
    /// MULS.W of the next word and Dm.
    MulsImmediate(usize),
    /// TST.L Dn.
    Tst(usize),
    /// SUBQ.L of 1 to 8 and Dn.
    Subq(usize, usize),
    /// ASL.L of 1 to 8 and Dn.
    Asl(usize, usize),
    /// A branch on a condition by a byte.
    Branch(usize, usize),
}

/// What a word is.
#[derive(Clone, Copy, Debug, PartialEq, Eq, Hash)]
pub enum Decoded {
    /// A form's word.
    Is(Form),
    /// The halt.
    Halt,
    /// Neither.
    Other,
}

/// The condition flags.
#[derive(Clone, Copy, Debug, Default, PartialEq, Eq, Hash)]
pub struct Flags {
    pub x: bool,
    pub n: bool,
    pub z: bool,
    pub v: bool,
    pub c: bool,
}

/// The part of the state that is no register and no memory.
#[derive(Clone, Copy, Debug, PartialEq, Eq, Hash)]
pub struct Status {
    pub flags: Flags,
    pub pc: u32,
}

/// The step that is next.
// Four ends of one judgement: only one has a form, and none is the lack of it.
#[derive(Clone, Copy, Debug, PartialEq, Eq, Hash)]
pub enum Judged {
    /// A form's, which may be made.
    Runs(Form),
    /// The halt.
    Halts,
    /// A word that is none of these.
    Unknown,
    /// An access that is odd or outside.
    Outside,
}

/// Why a run ended.
#[derive(Clone, Copy, Debug, PartialEq, Eq, Hash)]
pub enum End {
    /// On the halt.
    OnHalt,
    /// On a word that is neither a form's nor the halt.
    OnWord,
    /// On an access that is odd or outside.
    OnAccess,
    /// With the limit spent.
    OnLimit,
}

/// What a run hands back by value.
#[derive(Clone, Copy, Debug, PartialEq, Eq, Hash)]
pub struct Ran {
    pub end: End,
    /// The steps made.
    pub steps: u64,
    pub status: Status,
}
