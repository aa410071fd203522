//! The forms of an operation, tried in order: the verdict on an instruction by its operands.
ghost use Rattle.std.specs.Prelude.{◌≡◌, ◌∷◌, [], ◌≤◌, length, drop};
ghost use Rattle.std.specs.List.{list_any, find};
ghost use Rattle.rules.specs.Limits.{max_source};
ghost use Rattle.rules.specs.Text.{pieces, joined};
ghost use Rattle.rules.specs.Line.{instruction_of};
ghost use Rattle.requests.specs.Explain.{why_forms, why};
ghost use Rattle.std.specs.Option.{option_copied};
ghost use Rattle.branches.specs.Branch.{names_in};
ghost use Rattle.instruction.specs.Split.{operands_in, operands_at};
ghost use Rattle.explain.specs.Near.{Near};
ghost use Rattle.explain.specs.Verdict.{verdict_of};
ghost use Rattle.explain.specs.Form.{told, WhyOneGives, form_at, pair_form, pairs_of, shape_of, forms_for, why_by};

use crate::operand::{Here, Operand, Place, place_of};
use crate::{Verdict, part};
use instruction::Operands;
use opcode::mnemonic::Operation;

/// The forms of two operands.
#[derive(Clone, Copy, Debug, PartialEq, Eq, Hash)]
pub enum Pairs {
    Just(Operand, Operand),
    /// #u16,Dn and Dn,Dn
    Immediate,
    Move,
}

/// What an operation takes: how many operands, and its forms.
#[derive(Clone, Copy, Debug, PartialEq, Eq, Hash)]
pub enum Shape {
    Any,
    One(Operand),
    OneOrMore(Operand),
    Two(Pairs),
}

// ---- Forms in order.

// Whether a form is met.
fn is_one_met(forms: &[Place]) -> bool
    ensures { result ≡ list_any (λ f. f.met) forms.now }
{
    forms.iter().any(|form| form.met)
}

// The first form that has the operands' kinds.
fn first_standing(forms: &[Place]) -> Option<Place>
    ensures { result ≡ find (λ f. f.stands) forms.now }
{
    forms.iter().copied().find(|form| form.stands)
}

// The verdict by forms in order.
fn tell(forms: &[Place]) -> Verdict
    ensures { result ≡ told forms.now }
{
    if is_one_met(forms) {
        return Verdict::Emitted;
    }
    match first_standing(forms) {
        Some(form) => form.fault.unwrap_or(Verdict::Emitted),
        None => Verdict::WrongKinds,
    }
}

// The verdict by the one form of one operand; what comes after it is not looked at.
fn why_one(here: Here<'_>, x: Operand, s: &[u8]) -> Verdict
    requires { Near here.labels.now here.address }
    ensures { WhyOneGives here.entry.labels.now.table here.entry.address x s.now result }
{
    tell(&[place_of(here, x, s)])
}

// ---- Two operands.

// Two operands in a form's places.
#[tactic(auto, using(crate::proofs::Trying::two_places))]
fn pair_form(here: Here<'_>, x: Operand, y: Operand, s: &[u8], t: &[u8]) -> Place
    requires { Near here.labels.now here.address }
    ensures { result ≡ form_at here.entry.labels.now.table here.entry.address (s.now ∷ t.now ∷ []) (pair_form x y) }
{
    place_of(here, x, s).and(place_of(here, y, t))
}

// The verdict on two operands.
fn why_pairs(here: Here<'_>, pairs: Pairs, s: &[u8], t: &[u8]) -> Verdict
    requires { Near here.labels.now here.address }
    ensures { result ≡ verdict_of (why_forms here.entry.labels.now.table here.entry.address (pairs_of pairs) (s.now ∷ t.now ∷ [])) }
{
    let d = Operand::Dn;
    let at = Operand::AtAn;
    let label = Operand::Label;
    match pairs {
        Pairs::Just(x, y) => tell(&[pair_form(here, x, y, s, t)]),
        Pairs::Immediate => tell(&[
            pair_form(here, Operand::U16, d, s, t),
            pair_form(here, d, d, s, t),
        ]),
        Pairs::Move => tell(&[
            pair_form(here, Operand::U16, d, s, t),
            pair_form(here, at, d, s, t),
            pair_form(here, d, at, s, t),
            pair_form(here, d, d, s, t),
            pair_form(here, label, d, s, t),
            pair_form(here, d, label, s, t),
        ]),
    }
}

// ---- An instruction.

// What an operation takes.
fn shape_of(o: Operation) -> Shape
    ensures { result ≡ shape_of o }
{
    match o {
        Operation::Moveq | Operation::Subq | Operation::Asl => {
            Shape::Two(Pairs::Just(Operand::I8, Operand::Dn))
        }
        Operation::Move => Shape::Two(Pairs::Move),
        Operation::Movea => Shape::Two(Pairs::Just(Operand::HashLabel, Operand::An)),
        Operation::Muls | Operation::Cmp => Shape::Two(Pairs::Immediate),
        Operation::Tst => Shape::One(Operand::Dn),
        Operation::Dbra => Shape::Two(Pairs::Just(Operand::Dn, Operand::BranchTarget)),
        Operation::Nop | Operation::Simhalt => Shape::Any,
        Operation::Add | Operation::Sub => Shape::Two(Pairs::Just(Operand::Dn, Operand::Dn)),
        Operation::Jmp => Shape::One(Operand::JumpTarget),
        Operation::Branch(_) => Shape::OneOrMore(Operand::BranchTarget),
    }
}

// The verdict on the operands `found` in `tail`. The shape is found where it is acted on: before the operands, it becomes a table of
// values wherever an archive looks mnemonics up at two places.
#[tactic(auto, using(instruction::proofs::Places::operands_of_lem, crate::proofs::Operations::always, crate::proofs::Operations::not_one, crate::proofs::Operations::not_any, crate::proofs::Operations::not_two, crate::proofs::Operations::lying, crate::proofs::Operations::as_shape))]
fn why_operands(here: Here<'_>, o: Operation, found: Operands, tail: &[u8]) -> Verdict
    requires near { Near here.labels.now here.address }
    requires found_value { found ≡ operands_at tail.now }
    ensures { result ≡ verdict_of (why_by (forms_for (shape_of o)) here.entry.labels.now.table here.entry.address (operands_in tail.now)) }
{
    let s = part(tail, found.first);
    let t = part(tail, found.second);
    let count = found.count;
    match shape_of(o) {
        Shape::Any => Verdict::Emitted,
        Shape::One(x) => {
            if count != 1 {
                return Verdict::WrongCount;
            }
            why_one(here, x, s)
        }
        Shape::OneOrMore(target) => {
            if count == 0 {
                return Verdict::WrongCount;
            }
            why_one(here, target, s)
        }
        Shape::Two(pairs) => {
            if count != 2 {
                return Verdict::WrongCount;
            }
            why_pairs(here, pairs, s, t)
        }
    }
}

// The verdict on the operands of `tail`.
fn why_tail(here: Here<'_>, o: Operation, tail: &[u8]) -> Verdict
    requires { Near here.labels.now here.address }
    ensures { result ≡ verdict_of (why_by (forms_for (shape_of o)) here.entry.labels.now.table here.entry.address (operands_in tail.now)) }
{
    why_operands(here, o, instruction::split_operands(tail), tail)
}

// By a normalised copy of the tail that starts at `at`. `encode` and `encode_manual` copy into arrays of three lengths, this into one: what
// the three share is `join_pieces`, and this is three lines over it.
#[tactic(auto, using(instruction::proofs::Lists::take_over, instruction::proofs::Lists::over_room))]
fn why_copied(here: Here<'_>, o: Operation, t: &[u8], at: usize) -> Verdict
    requires near { Near here.labels.now here.address }
    requires at_in_bounds { (at ≤ length t.now) × (length t.now ≤ max_source) }
    ensures { result ≡ verdict_of (why_by (forms_for (shape_of o)) here.entry.labels.now.table here.entry.address (operands_in (joined (pieces (drop at t.now))))) }
{
    let mut copy = [0u8; rules::MAX_SOURCE];
    let n = instruction::join_pieces(t, at, &mut copy);
    why_tail(here, o, &copy[..n])
}

/// The verdict on the instruction whose text is `t`, by the names in use (`branches`); its tail is copied only where it does not stand
/// joined.
#[tactic(auto, using(instruction::proofs::FirstPiece::head_of_lem, crate::proofs::Operations::why_unknown))]
pub fn why_instruction(names: Option<&[u8]>, here: Here<'_>, t: &[u8]) -> Verdict
    requires { Near here.labels.now here.address × (length t.now ≤ max_source) }
    ensures { result ≡ verdict_of (why (names_in (option_copied names.entry)) here.entry.labels.now.table here.entry.address (instruction_of t.now)) }
{
    let head = instruction::read_head(t);
    // No `?`: what is answered here is a verdict.
    let Some(o) = branches::find_operation_by(names, &t[head.start..head.end]) else {
        return Verdict::UnknownMnemonic;
    };
    let start = text::skip_blanks(t, head.tail);
    if instruction::is_joined(t, start) {
        return why_tail(here, o, &t[start..]);
    }
    why_copied(here, o, t, head.tail)
}
