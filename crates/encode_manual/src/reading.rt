//! An instruction read: its head, then its operands, whose form goes to who asked.
ghost use Rattle.std.specs.Prelude.{◌≤◌, length, Option};
ghost use Rattle.rules.specs.Limits.{max_source};
ghost use Rattle.rules.specs.Line.{instruction_of};
ghost use Rattle.requests.specs.ManualCall.{Form as Said, form};
ghost use Rattle.instruction.specs.Split.{operands_in};
ghost use Rattle.encode_manual.specs.Form.{Reads};
ghost use Rattle.encode_manual.specs.Heads.{Conditioned, head_by, form_by};

use crate::copied::read_copied;
use crate::form::Form;
use crate::operation::read_operands;
use instruction::Suffix;
use opcode::mnemonic::Operation;

// Who reads instructions, and what is made of a form. A form that holds a part of a copied tail can't be handed out, so it is handed in here.
pub trait Reader {
    type Read;

    // What is made of the rules' form.
    ghost reads: { Self → Option Said → Self.Read → Type 0 };

    fn read_form(&self, form: Option<Form<'_>>) -> Self::Read
        requires { (g : Option Said) × Reads g form }
        ensures { (g : Option Said) → Reads g form.entry → reads self.now g result };
}

// What is made of an operation, its operands cut from `tail`.
pub fn read_tail<R: Reader>(reader: &R, o: Operation, x: Suffix, tail: &[u8]) -> R::Read
    requires { Conditioned o }
    ensures { R.reads reader.now (form_by (head_by x o) (operands_in tail.now)) result }
{
    let found = instruction::split_operands(tail);
    reader.read_form(read_operands(o, x, found, tail))
}

// What is made of the instruction whose text is `t`; its tail is copied only where it does not stand joined. It is `let .. else`, since
// something is made of no form too.
pub fn read_instruction<R: Reader>(reader: &R, t: &[u8]) -> R::Read
    requires { length t.now ≤ max_source }
    ensures { R.reads reader.now (form (instruction_of t.now)) result }
{
    let head = instruction::read_head(t);
    let Some(o) = opcode::mnemonic::find_operation(&t[head.start..head.end]) else {
        return reader.read_form(None);
    };
    let x = instruction::suffix_of(t, head);
    let start = text::skip_blanks(t, head.tail);
    if instruction::is_joined(t, start) {
        read_tail(reader, o, x, &t[start..])
    } else {
        read_copied(reader, o, x, t, head.tail)
    }
}
