//! Mnemonics, "compared as fixed byte strings": the length picks a chain of literals, each compared with the piece in upper case.
ghost use Rattle.std.specs.Prelude.{◌≡◌};
ghost use Rattle.rules.specs.Text.{uppers};
ghost use Rattle.rules.specs.Encode.{branches, mnemonics, operation_in};
ghost use Rattle.opcode.specs.Operation.{operation_of, those, of_length, other_three};

/// What a mnemonic names; a branch has its condition.
#[derive(Clone, Copy, Debug, PartialEq, Eq, Hash)]
pub enum Operation {
    Moveq,
    Move,
    Movea,
    Muls,
    Tst,
    Subq,
    Asl,
    Dbra,
    Nop,
    Simhalt,
    Add,
    Sub,
    Cmp,
    Jmp,
    // A number below 16 and no enum: a branch table lends any of the 16.
    Branch(u8),
}

/// The operation of a mnemonic as written, in either case; None where it names none.
// Inlined with its chains: else assembling a script takes 5 in 100 more instructions.
#[tactic(auto, using(crate::proofs::Mnemonics::by_length, crate::proofs::Mnemonics::is_branch_lem, crate::proofs::Mnemonics::other_three_lem, crate::proofs::Mnemonics::among, crate::proofs::Mnemonics::among_branches, crate::proofs::Mnemonics::none_fits))]
#[inline(always)]
pub fn find_operation(mnemonic: &[u8]) -> Option<Operation>
    ensures { result ≡ operation_of (operation_in mnemonics (uppers mnemonic.now)) }
{
    match mnemonic.len() {
        3 if text::upper_case(mnemonic[0]) == b'B' => find_branch(mnemonic),
        3 => find_three(mnemonic),
        4 => find_four(mnemonic),
        5 => find_five(mnemonic),
        7 => find_seven(mnemonic),
        _ => None,
    }
}

// Among the branches, which are the mnemonics that start with B. A list of names and operations would be a table in the archives, which
// have none: so here and below each name stands in a test.
#[tactic(auto, unfolding(rules::specs::Encode::branches, rules::specs::Encode::operation_in, rules::specs::Text::bytes))]
#[inline(always)]
fn find_branch(mnemonic: &[u8]) -> Option<Operation>
    ensures { result ≡ operation_of (operation_in branches (uppers mnemonic.now)) }
{
    match mnemonic {
        m if text::same_upper(m, b"BRA") => Some(Operation::Branch(0)),
        m if text::same_upper(m, b"BCC") => Some(Operation::Branch(4)),
        m if text::same_upper(m, b"BCS") => Some(Operation::Branch(5)),
        m if text::same_upper(m, b"BNE") => Some(Operation::Branch(6)),
        m if text::same_upper(m, b"BEQ") => Some(Operation::Branch(7)),
        m if text::same_upper(m, b"BPL") => Some(Operation::Branch(8)),
        m if text::same_upper(m, b"BMI") => Some(Operation::Branch(9)),
        m if text::same_upper(m, b"BGE") => Some(Operation::Branch(12)),
        m if text::same_upper(m, b"BLT") => Some(Operation::Branch(13)),
        m if text::same_upper(m, b"BGT") => Some(Operation::Branch(14)),
        m if text::same_upper(m, b"BLE") => Some(Operation::Branch(15)),
        _ => None,
    }
}

// Among the other mnemonics of three bytes.
#[tactic(auto, unfolding(crate::specs::Operation::those, rules::specs::Encode::mnemonics, rules::specs::Encode::other_mnemonics, rules::specs::Encode::branches, rules::specs::Encode::operation_in, rules::specs::Text::bytes, rules::specs::Text::starts))]
#[inline(always)]
fn find_three(mnemonic: &[u8]) -> Option<Operation>
    ensures { result ≡ operation_of (operation_in (those other_three mnemonics) (uppers mnemonic.now)) }
{
    match mnemonic {
        m if text::same_upper(m, b"TST") => Some(Operation::Tst),
        m if text::same_upper(m, b"ASL") => Some(Operation::Asl),
        m if text::same_upper(m, b"NOP") => Some(Operation::Nop),
        m if text::same_upper(m, b"ADD") => Some(Operation::Add),
        m if text::same_upper(m, b"SUB") => Some(Operation::Sub),
        m if text::same_upper(m, b"CMP") => Some(Operation::Cmp),
        m if text::same_upper(m, b"JMP") => Some(Operation::Jmp),
        _ => None,
    }
}

// Among the mnemonics of four bytes.
#[tactic(auto, using(crate::proofs::Mnemonics::the_four), unfolding(rules::specs::Encode::operation_in, rules::specs::Text::bytes))]
#[inline(always)]
fn find_four(mnemonic: &[u8]) -> Option<Operation>
    ensures { result ≡ operation_of (operation_in (those (of_length 4) mnemonics) (uppers mnemonic.now)) }
{
    match mnemonic {
        m if text::same_upper(m, b"MOVE") => Some(Operation::Move),
        m if text::same_upper(m, b"MULS") => Some(Operation::Muls),
        m if text::same_upper(m, b"SUBQ") => Some(Operation::Subq),
        m if text::same_upper(m, b"DBRA") => Some(Operation::Dbra),
        m if text::same_upper(m, b"JUMP") => Some(Operation::Jmp),
        _ => None,
    }
}

// Among the mnemonics of five bytes.
#[tactic(auto, using(crate::proofs::Mnemonics::the_five), unfolding(rules::specs::Encode::operation_in, rules::specs::Text::bytes))]
#[inline(always)]
fn find_five(mnemonic: &[u8]) -> Option<Operation>
    ensures { result ≡ operation_of (operation_in (those (of_length 5) mnemonics) (uppers mnemonic.now)) }
{
    match mnemonic {
        m if text::same_upper(m, b"MOVEQ") => Some(Operation::Moveq),
        m if text::same_upper(m, b"MOVEA") => Some(Operation::Movea),
        _ => None,
    }
}

// Among the mnemonics of seven bytes.
#[tactic(auto, unfolding(crate::specs::Operation::those, rules::specs::Encode::mnemonics, rules::specs::Encode::other_mnemonics, rules::specs::Encode::branches, rules::specs::Encode::operation_in, rules::specs::Text::bytes))]
#[inline(always)]
fn find_seven(mnemonic: &[u8]) -> Option<Operation>
    ensures { result ≡ operation_of (operation_in (those (of_length 7) mnemonics) (uppers mnemonic.now)) }
{
    match mnemonic {
        m if text::same_upper(m, b"SIMHALT") => Some(Operation::Simhalt),
        _ => None,
    }
}
