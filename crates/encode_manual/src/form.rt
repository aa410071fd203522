#![tactic(auto, using(crate::proofs::Forms::stops, opcode::proofs::Callers::data_small, opcode::proofs::Callers::address_small, opcode::proofs::Callers::indirect_small), unfolding(requests::specs::ManualCall::form_of, rules::specs::Encode::one, rules::specs::Encode::two))]

//! What an instruction says, before any label is looked up. An operand that can't be read is no form.
// A form is 32 bytes, which a call would hand back through memory: so what makes one is inlined, here and in operation.rt, and so is what
// takes it (lib.rt). A value is narrowed by `as`, which is proved to lose nothing.
ghost use Rattle.std.specs.Prelude.{◌≡◌, [], ◌∷◌, ◌/◌, ◌%◌, ◌<◌, None, Some};
ghost use Rattle.rules.specs.Text.{Text};
ghost use Rattle.rules.specs.Encode.{data_register};
ghost use Rattle.manual.specs.Manual.{Condition, condition};
ghost use Rattle.requests.specs.ManualCall.{quickly, form_of, moveq, dbra, branch_on, muls_w, move_l, movea_l, cmp_l, tst_l, jmp};
ghost use Rattle.encode_manual.specs.Form.{size_of, Reads, RegistersGives, QuickGives};

use crate::operand::{immediate8, immediate16, immediate32, is_other_text, number32};
use numeral::signed::low_byte;
use numeral::unsigned::{after_byte, looks_numeric};
use opcode::register::{parse_address_register, parse_data_register, parse_indirect_register};
use opcode::word::{moveq_word, quick_word, with_high, with_low, with_registers};

// What an instruction says: its words, or what they are made of once the labels are known.
#[derive(Clone, Copy, Debug, PartialEq, Eq)]
pub enum Form<'t> {
    Word(u16),
    Value(u16, u16),
    Long(u16, u32),
    // An operation word, and the label whose address follows it in two words.
    Labelled(u16, &'t [u8]),
    // A branch's condition, and the operand whose displacement goes into the operation word.
    Branch(u8, &'t [u8]),
    // The operation word of DBRA, and the operand whose displacement follows it.
    Loop(u16, &'t [u8]),
}

impl<'t> Form<'t> {
    // How many bytes it takes. Of one `match` with 2, 4 and 6 the compiler makes a table of values, and the archives have none.
    #[inline(always)]
    pub fn size(self) -> u32
        ensures { result ≡ size_of self.entry }
    {
        let second = !matches!(self, Form::Word(_) | Form::Branch(..));
        let third = matches!(self, Form::Long(..) | Form::Labelled(..));
        2 * (1 + u32::from(second) + u32::from(third))
    }
}

// Dn,Dm.
#[inline(always)]
pub fn registers<'t>(opcode: u16, s: &'t [u8], t: &'t [u8]) -> Option<Form<'t>>
    requires { (opcode / 512 % 8 ≡ 0) × (opcode % 8 ≡ 0) }
    ensures { RegistersGives opcode s.now t.now result }
{
    let n = parse_data_register(s)?;
    let m = parse_data_register(t)?;
    Some(Form::Word(with_registers(opcode, m, n)))
}

// MOVEQ, #i8,Dn.
#[inline(always)]
pub fn quick_move<'t>(s: &'t [u8], t: &'t [u8]) -> Option<Form<'t>>
    ensures { Reads (form_of moveq (s.now ∷ t.now ∷ [])) result }
{
    let v = immediate8(s)?;
    let n = parse_data_register(t)?;
    Some(Form::Word(moveq_word(n, low_byte(v))))
}

// The number of SUBQ and ASL, which "take 1 to 8".
#[inline(always)]
fn quickly(s: &[u8]) -> Option<u16>
    ensures { result ≡ quickly s.now }
{
    let v = immediate8(s)?;
    if v < 1 || 8 < v {
        return None;
    }
    Some(v as u16)
}

// SUBQ and ASL.
#[inline(always)]
pub fn quick<'t>(opcode: u16, s: &'t [u8], t: &'t [u8]) -> Option<Form<'t>>
    requires { (opcode / 512 % 8 ≡ 0) × (opcode % 8 ≡ 0) }
    ensures { QuickGives opcode s.now t.now result }
{
    let k = quickly(s)?;
    let n = parse_data_register(t)?;
    Some(Form::Word(quick_word(opcode, k, n)))
}

// MULS: #u16,Dn, with the value in one extension word, and Dn,Dm. It is `let .. else`, since the else branch has a form too.
#[inline(always)]
pub fn multiply<'t>(s: &'t [u8], t: &'t [u8]) -> Option<Form<'t>>
    ensures { Reads (form_of muls_w (s.now ∷ t.now ∷ [])) result }
{
    let Some(v) = immediate16(s) else {
        return registers(0xC1C0, s, t);
    };
    let n = parse_data_register(t)?;
    Some(Form::Value(with_high(0xC1FC, n), v as u16))
}

// CMP: #u32,Dn, "which is CMPI".
#[inline(always)]
pub fn compare<'t>(s: &'t [u8], t: &'t [u8]) -> Option<Form<'t>>
    ensures { Reads (form_of cmp_l (s.now ∷ t.now ∷ [])) result }
{
    let v = immediate32(s)?;
    let n = parse_data_register(t)?;
    Some(Form::Long(with_low(0x0C80, n), v))
}

// TST, Dn.
#[inline(always)]
pub fn test<'t>(s: &'t [u8]) -> Option<Form<'t>>
    ensures { Reads (form_of tst_l (s.now ∷ [])) result }
{
    let n = parse_data_register(s)?;
    Some(Form::Word(with_low(0x4A80, n)))
}

// MOVE.L to Dn, of an immediate, (An) or a label.
#[inline(always)]
fn load<'t>(s: &'t [u8], n: u16) -> Option<Form<'t>>
    requires { n < 8 }
    ensures { (t : Text) → data_register t ≡ Some n → Reads (form_of move_l (s.now ∷ t ∷ [])) result }
{
    if let Some(v) = immediate32(s) {
        return Some(Form::Long(with_high(0x203C, n), v));
    }
    if let Some(m) = parse_indirect_register(s) {
        return Some(Form::Word(with_registers(0x2010, n, m)));
    }
    if !is_other_text(s) {
        return None;
    }
    Some(Form::Labelled(with_high(0x2039, n), s))
}

// MOVE.L of Dn, to (An) or a label.
#[inline(always)]
fn store<'t>(s: &'t [u8], t: &'t [u8]) -> Option<Form<'t>>
    ensures { data_register t.now ≡ None → Reads (form_of move_l (s.now ∷ t.now ∷ [])) result }
{
    let n = parse_data_register(s)?;
    if let Some(m) = parse_indirect_register(t) {
        return Some(Form::Word(with_registers(0x2080, m, n)));
    }
    if !is_other_text(t) {
        return None;
    }
    Some(Form::Labelled(with_low(0x23C0, n), t))
}

// MOVE.L, by whether it goes to a data register.
#[inline(always)]
pub fn move_long<'t>(s: &'t [u8], t: &'t [u8]) -> Option<Form<'t>>
    ensures { Reads (form_of move_l (s.now ∷ t.now ∷ [])) result }
{
    match parse_data_register(t) {
        Some(n) => load(s, n),
        None => store(s, t),
    }
}

// MOVEA, #label,An: the name is all after `#`.
#[inline(always)]
pub fn point<'t>(s: &'t [u8], t: &'t [u8]) -> Option<Form<'t>>
    ensures { Reads (form_of movea_l (s.now ∷ t.now ∷ [])) result }
{
    let name = after_byte(s, b'#')?;
    let n = parse_address_register(t)?;
    Some(Form::Labelled(with_high(0x207C, n), name))
}

// JMP: a number as it stands, or a label's address.
#[inline(always)]
pub fn jump<'t>(s: &'t [u8]) -> Option<Form<'t>>
    ensures { Reads (form_of jmp (s.now ∷ [])) result }
{
    if !is_other_text(s) {
        return None;
    }
    if looks_numeric(s) {
        let v = number32(s)?;
        return Some(Form::Long(0x4EF9, v));
    }
    Some(Form::Labelled(0x4EF9, s))
}

// One of the eleven branches, with the manual's condition.
#[inline(always)]
pub fn branch<'t>(number: u8, s: &'t [u8]) -> Option<Form<'t>>
    ensures { (c : Condition) → number ≡ condition c → Reads (form_of (branch_on c) (s.now ∷ [])) result }
{
    if !is_other_text(s) {
        return None;
    }
    Some(Form::Branch(number, s))
}

// DBRA Dn,d.
#[inline(always)]
pub fn decrement<'t>(s: &'t [u8], t: &'t [u8]) -> Option<Form<'t>>
    ensures { Reads (form_of dbra (s.now ∷ t.now ∷ [])) result }
{
    let n = parse_data_register(s)?;
    if !is_other_text(t) {
        return None;
    }
    Some(Form::Loop(with_low(0x51C8, n), t))
}
