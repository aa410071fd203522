//! An operand in a place of a form: whether it makes the word there, what is wrong with it if its kind is right, and its kind.
ghost use Rattle.std.specs.Prelude.{◌≡◌, false, None, Some, [], ◌∷◌, ◌||◌, cond};
ghost use Rattle.rules.specs.Text.{after, starts};
ghost use Rattle.rules.specs.Forms.{kind_for};
ghost use Rattle.rules.specs.Number.{signed_reading, reading16, hex_tail};
ghost use Rattle.rules.specs.Label.{find};
ghost use Rattle.rules.specs.Encode.{is_some, all_digits};
ghost use Rattle.numeral.specs.Number.{number_of, signed_of};
ghost use Rattle.opcode.specs.Kind.{operand_kind};
ghost use Rattle.explain.specs.Near.{Near};
ghost use Rattle.explain.specs.Verdict.{failure_verdict};
ghost use Rattle.explain.specs.Operand.{operand_of, fit_at, fit, read_fit, register_fit, label_fit, hash_fit, reach_fit, signed_fit, place_at};

use crate::Verdict;
use label::Labels;
use numeral::Failure;
use numeral::signed::{displacement, parse_immediate, read_signed};
use numeral::unsigned::{after_byte, looks_numeric, parse_immediate_u16, parse_u16};
use opcode::register::{
    OperandKind, kind_of, parse_address_register, parse_data_register, parse_indirect_register,
};

/// What a form has in a place.
#[derive(Clone, Copy, Debug, PartialEq, Eq, Hash)]
pub enum Operand {
    I8,
    U16,
    HashLabel,
    Dn,
    An,
    AtAn,
    Label,
    JumpTarget,
    BranchTarget,
}

/// Where an operand is looked at: the labels, and the address of its instruction.
// No `==`: `Labels`, which it borrows, holds a `&mut` and has none.
#[derive(Clone, Copy)]
pub struct Here<'a> {
    pub labels: &'a Labels<'a>,
    pub address: u32,
}

/// Whether an operand makes the word in its place, and what is wrong with it there.
// `met` beside the Option: a signed operand may be met and have a fault (`fit_branch`).
#[derive(Clone, Copy, Debug, PartialEq, Eq, Hash)]
pub struct Fit {
    pub met: bool,
    pub fault: Option<Verdict>,
}

/// The same, and whether its kind is that of the place; so of all operands of a form.
// `met` beside the Option as in `Fit`.
#[derive(Clone, Copy, Debug, PartialEq, Eq, Hash)]
pub struct Place {
    pub met: bool,
    pub stands: bool,
    pub fault: Option<Verdict>,
}

impl Place {
    ghost use Rattle.explain.specs.Operand.{both_places};

    /// Both of two operands in a form's places.
    pub fn and(self, other: Place) -> Place
        ensures { result ≡ both_places self other }
    {
        Place {
            met: self.met && other.met,
            stands: self.stands && other.stands,
            fault: self.fault.or(other.fault),
        }
    }
}

// It makes the word.
const MADE: Fit = Fit {
    met: true,
    fault: None,
};

// It is no such operand.
const OTHER: Fit = Fit {
    met: false,
    fault: None,
};

// It is one, with a fault.
fn blamed(fault: Verdict) -> Fit
    ensures { result ≡ fit false (Some fault) }
{
    Fit {
        met: false,
        fault: Some(fault),
    }
}

// ---- What is read.

impl From<Failure> for Verdict {
    ghost from_gives = { λ f v. v ≡ failure_verdict f };

    fn from(failure: Failure) -> Verdict {
        match failure {
            Failure::NoDigits => Verdict::NoDigits,
            Failure::BadDigit => Verdict::BadDigit,
            Failure::OutOfRange => Verdict::OutOfRange,
        }
    }
}

// A number, where the operand is one.
fn fit_read<T: Drop>(read: Option<Result<T, Failure>>) -> Fit
    ensures { result ≡ read_fit read }
{
    match read {
        Some(Ok(_)) => MADE,
        Some(Err(failure)) => blamed(Verdict::from(failure)),
        None => OTHER,
    }
}

// A register, where the operand is one.
fn fit_register(number: Option<u16>) -> Fit
    ensures { result ≡ register_fit number }
{
    match number {
        Some(_) => MADE,
        None => OTHER,
    }
}

// A label.
fn fit_label(labels: &Labels<'_>, s: &[u8]) -> Fit
    ensures { result ≡ label_fit (find s.now labels.now.table) }
{
    match labels.find(s) {
        Some(_) => MADE,
        None => blamed(Verdict::NotRecorded),
    }
}

// #label: the name is all after `#`.
fn fit_hash(labels: &Labels<'_>, s: &[u8]) -> Fit
    ensures { result ≡ hash_fit labels.now.table (after (35 ∷ []) s.now) }
{
    match after_byte(s, b'#') {
        Some(name) => fit_label(labels, name),
        None => OTHER,
    }
}

// JMP's number or label.
fn fit_jump(labels: &Labels<'_>, s: &[u8]) -> Fit
    ensures { result ≡ cond (is_some (hex_tail s.now) || all_digits s.now) (read_fit (Some (number_of (reading16 s.now)))) (label_fit (find s.now labels.now.table)) }
{
    if looks_numeric(s) {
        fit_read(Some(parse_u16(s)))
    } else {
        fit_label(labels, s)
    }
}

// A label, and its displacement from the instruction.
#[tactic(auto, using(label::proofs::Rows::below_found))]
fn fit_reach(here: Here<'_>, s: &[u8]) -> Fit
    requires { Near here.labels.now here.address }
    ensures { result ≡ reach_fit here.entry.address (find s.now here.entry.labels.now.table) }
{
    match here.labels.find(s) {
        Some(label) if displacement(label, here.address).is_some() => MADE,
        Some(_) => blamed(Verdict::OutOfReach),
        None => blamed(Verdict::NotRecorded),
    }
}

// A branch's displacement. A signed operand is blamed as a number, though a label in reach makes the word. `encode` and `encode_manual` ask
// for a sign in the same words: a function for all three would have a contract as long as they are.
fn fit_branch(here: Here<'_>, s: &[u8]) -> Fit
    requires { Near here.labels.now here.address }
    ensures { result ≡ cond (starts (43 ∷ []) s.now || starts (45 ∷ []) s.now) (signed_fit (reach_fit here.entry.address (find s.now here.entry.labels.now.table)).met (signed_of (signed_reading 10 128 s.now))) (reach_fit here.entry.address (find s.now here.entry.labels.now.table)) }
{
    let reach = fit_reach(here, s);
    let signed = text::starts_with(s, b"+") || text::starts_with(s, b"-");
    if !signed {
        return reach;
    }
    match read_signed(s, 10, 128) {
        Ok(_) => MADE,
        Err(failure) => Fit {
            met: reach.met,
            fault: Some(Verdict::from(failure)),
        },
    }
}

// An operand in any place.
#[tactic(auto, using(crate::proofs::Fits::as_i8, crate::proofs::Fits::as_u16, crate::proofs::Fits::as_hash, crate::proofs::Fits::as_dn, crate::proofs::Fits::as_an, crate::proofs::Fits::as_at_an, crate::proofs::Fits::as_label, crate::proofs::Fits::as_jump, crate::proofs::Fits::as_branch))]
fn fit_in(here: Here<'_>, x: Operand, s: &[u8]) -> Fit
    requires { Near here.labels.now here.address }
    ensures { result ≡ fit_at here.entry.labels.now.table here.entry.address (operand_of x) s.now }
{
    match x {
        Operand::I8 => fit_read(parse_immediate(s)),
        Operand::U16 => fit_read(parse_immediate_u16(s)),
        Operand::HashLabel => fit_hash(here.labels, s),
        Operand::Dn => fit_register(parse_data_register(s)),
        Operand::An => fit_register(parse_address_register(s)),
        Operand::AtAn => fit_register(parse_indirect_register(s)),
        Operand::Label => fit_label(here.labels, s),
        Operand::JumpTarget => fit_jump(here.labels, s),
        Operand::BranchTarget => fit_branch(here, s),
    }
}

// ---- Kinds.

// The kind that stands in a place. Of one `match` with the five kinds the compiler makes a table of them.
#[tactic(auto, unfolding(rules::specs::Forms::kind_for))]
fn kind_for(x: Operand) -> OperandKind
    ensures { result ≡ operand_kind (kind_for (operand_of x)) }
{
    match x {
        Operand::Label | Operand::JumpTarget | Operand::BranchTarget => OperandKind::Text,
        _ => match x {
            Operand::Dn => OperandKind::Dn,
            Operand::An => OperandKind::An,
            Operand::AtAn => OperandKind::AtAn,
            _ => OperandKind::Hash,
        },
    }
}

/// An operand in a place, and whether its kind is that of the place.
#[tactic(auto, using(crate::proofs::Placed::placed))]
pub fn place_of(here: Here<'_>, x: Operand, s: &[u8]) -> Place
    requires { Near here.labels.now here.address }
    ensures { result ≡ place_at here.entry.labels.now.table here.entry.address (operand_of x) s.now }
{
    let Fit { met, fault } = fit_in(here, x, s);
    Place {
        met,
        stands: kind_of(s) == kind_for(x),
        fault,
    }
}
