#![tactic(auto)]

//! One instruction of the manual's call to its words, by value; or its fault, with the size that it takes all the same.
ghost use Rattle.std.specs.Prelude.{◌≡◌, ◌≤◌, length, Some};
ghost use Rattle.rules.specs.Limits.{max_source};
ghost use Rattle.rules.specs.Line.{instruction_of};
ghost use Rattle.rules.specs.Assemble.{words_by};
ghost use Rattle.requests.specs.ManualCall.{Form as Said, form_size, manual_size, manual_fault, manual_encode};
ghost use Rattle.encode_manual.specs.Code.{size_of, fault_size, size_in, fault_of, contents_of, Codes};
ghost use Rattle.encode_manual.specs.Form.{Says};

use displacement::{Room, parse_displacement};
use form::Form;
use label::Labels;
use opcode::word::branch_word;
use reading::Reader;

mod copied; // copied.rt: an instruction by a copy of its tail
mod displacement; // displacement.rt: of branches and DBRA
mod form; // form.rt: what an instruction says
mod operand; // operand.rt: what an operand says
mod operation; // operation.rt: the form of an operation
mod reading; // reading.rt: an instruction, and who makes what of its form

/// The words of an instruction in the manual's call.
#[derive(Clone, Copy, Debug, PartialEq, Eq, Hash)]
pub enum ManualCode {
    Word(u16),
    /// A word and one extension word: the value of MULS, DBRA's displacement.
    Value(u16, u16),
    /// A word and a long in two extension words.
    Long(u16, u32),
    /// A word and a label's address in two extension words.
    Address(u16, u32),
}

/// Why an instruction has no words, and how many bytes it takes all the same.
// No `Result`: both are faults, each with the bytes that it takes.
#[derive(Clone, Copy, Debug, PartialEq, Eq, Hash)]
pub enum Fault {
    /// 14: it has no encoding here.
    NoEncoding(u32),
    /// 15: its only fault is a displacement out of range.
    OutOfReach(u32),
}

impl ManualCode {
    /// How many bytes the words take.
    // Of one `match` with 2, 4 and 6 the compiler makes a table of values, and the archives have none.
    pub fn size(self) -> u32
        ensures { result ≡ size_of self }
    {
        let second = !matches!(self, ManualCode::Word(_));
        let third = matches!(self, ManualCode::Long(..) | ManualCode::Address(..));
        2 * (1 + u32::from(second) + u32::from(third))
    }
}

impl Fault {
    /// How many bytes the instruction takes.
    pub fn size(self) -> u32
        ensures { result ≡ fault_size self }
    {
        match self {
            Fault::NoEncoding(size) | Fault::OutOfReach(size) => size,
        }
    }
}

/// How many bytes an instruction takes, by what it comes to.
pub fn code_size(code: Result<ManualCode, Fault>) -> u32
    ensures { result ≡ size_in code }
{
    match code {
        Ok(code) => code.size(),
        Err(fault) => fault.size(),
    }
}

// An instruction with no form.
const NO_FORM: Fault = Fault::NoEncoding(0);

// ---- What is made of an instruction: its words, or its size alone.

// The words of a form at an address; or its fault, with the bytes that it takes all the same. A displacement is narrowed by `as`, which is
// proved to lose nothing. It is inlined: else a form of 32 bytes is handed to it through memory, 3 in 100 instructions of a script more.
// By `match`: with `map_err` and `?` the proof would first take a closure's clause and a conversion apart, to the same four answers.
#[inline(always)]
fn encode_form(form: Form<'_>, labels: &Labels<'_>, address: u32) -> Result<ManualCode, Fault>
    requires { (g : Said) × Says g form }
    ensures { (g : Said) → Says g form.entry → Codes labels.now.table address (Some g) result }
{
    match form {
        Form::Word(w) => Ok(ManualCode::Word(w)),
        Form::Value(w, v) => Ok(ManualCode::Value(w, v)),
        Form::Long(w, v) => Ok(ManualCode::Long(w, v)),
        Form::Labelled(w, name) => match labels.find(name) {
            Some(x) => Ok(ManualCode::Address(w, x)),
            None => Err(Fault::NoEncoding(6)),
        },
        Form::Branch(condition, s) => match parse_displacement(labels, address, Room::Byte, s) {
            Ok(d) => Ok(ManualCode::Word(branch_word(condition, (d % 256) as u8))),
            Err(unfit) => Err(unfit.fault(2)),
        },
        Form::Loop(w, s) => match parse_displacement(labels, address, Room::Word, s) {
            Ok(d) => Ok(ManualCode::Value(w, d)),
            Err(unfit) => Err(unfit.fault(4)),
        },
    }
}

// Makes the words of an instruction at an address, by the labels. No `==`: it borrows what holds a `&mut`.
#[derive(Clone, Copy)]
struct Encoder<'l, 's> {
    labels: &'l Labels<'s>,
    address: u32,
}

impl<'l, 's> Reader for Encoder<'l, 's> {
    type Read = Result<ManualCode, Fault>;

    ghost reads = { λ encoder g r. Codes encoder.labels.now.table encoder.address g r };

    #[inline(always)]
    fn read_form(&self, form: Option<Form<'_>>) -> Result<ManualCode, Fault> {
        match form {
            Some(form) => encode_form(form, self.labels, self.address),
            None => Err(NO_FORM),
        }
    }
}

// Makes the size of an instruction alone: no label is looked up. No `==`: it has one value.
#[derive(Clone, Copy)]
struct Sizer;

impl Reader for Sizer {
    type Read = u32;

    ghost reads = { λ _ g n. n ≡ form_size g };

    #[inline(always)]
    fn read_form(&self, form: Option<Form<'_>>) -> u32 {
        match form {
            Some(form) => form.size(),
            None => 0,
        }
    }
}

/// What the instruction whose text is `t` comes to at an address: its words; or its fault, with the bytes that it takes all the same.
pub fn encode_manual(labels: &Labels<'_>, address: u32, t: &[u8]) -> Result<ManualCode, Fault>
    requires { length t.now ≤ max_source }
    ensures size { size_in result ≡ manual_size (instruction_of t.now) }
    ensures fault { fault_of result ≡ manual_fault labels.now.table address (instruction_of t.now) }
    ensures words { contents_of result ≡ words_by manual_encode labels.now.table address (instruction_of t.now) }
{
    reading::read_instruction(&Encoder { labels, address }, t)
}

/// How many bytes the instruction whose text is `t` takes: the same at any address and with any labels.
pub fn manual_size(t: &[u8]) -> u32
    requires { length t.now ≤ max_source }
    ensures { result ≡ manual_size (instruction_of t.now) }
{
    reading::read_instruction(&Sizer, t)
}
