#![tactic(auto)]

//! What a word is to the bench's machine: a form, the halt, or neither.
ghost use Rattle.std.specs.Prelude.{◌≡◌, ◌<◌};
ghost use Rattle.machine.specs.Form.{listed};
ghost use Rattle.machine.specs.Decode.{decode_of, branch};

use machine::{Decoded, Form};

/// Whether branches with a condition are run: always, on carry, on zero, and on signed comparisons.
#[tactic(auto, unfolding(machine::specs::Form::listed))]
fn is_listed(k: usize) -> bool
    ensures { result ≡ listed k }
{
    matches!(k, 0 | 4..=7 | 12..)
}

/// What a branch's word is.
fn decode_branch(w: usize) -> Decoded
    ensures { result ≡ branch w }
{
    let k = w / 256 % 16;
    let b = w % 256;
    if is_listed(k) && b != 0 && b != 255 {
        Decoded::Is(Form::Branch(k, b))
    } else {
        Decoded::Other
    }
}

/// The form that a word is: the fields are taken out, and the word is put together again from them and compared.
#[tactic(auto, unfolding(machine::specs::Decode::decode_of))]
pub fn decode(w: usize) -> Decoded
    requires { w < 65536 }
    ensures { result ≡ decode_of w }
{
    let m = w / 512 % 8;
    let n = w % 8;
    let form = match w / 4096 {
        2 if w == 0x2010 + m * 512 + n => Form::Load(n, m),
        2 if w == 0x2080 + m * 512 + n => Form::Store(n, m),
        3 if w == 0x3000 + m * 512 + n => Form::MoveWord(n, m),
        4 if w == 0x4A80 + n => Form::Tst(n),
        4 if w == 0x4E71 => Form::Nop,
        4 if w == 0x4E72 => return Decoded::Halt,
        5 if w == 0x5180 + m * 512 + n => Form::Subq((m + 7) % 8 + 1, n),
        6 => return decode_branch(w),
        7 if w == 0x7000 + m * 512 + w % 256 => Form::Moveq(w % 256, m),
        9 if w == 0x9040 + m * 512 + n => Form::Sub(n, m),
        11 if w == 0xB040 + m * 512 + n => Form::Cmp(n, m),
        12 if w == 0xC1C0 + m * 512 + n => Form::Muls(n, m),
        12 if w == 0xC1FC + m * 512 => Form::MulsImmediate(m),
        13 if w == 0xD040 + m * 512 + n => Form::Add(n, m),
        14 if w == 0xE180 + m * 512 + n => Form::Asl((m + 7) % 8 + 1, n),
        _ => return Decoded::Other,
    };
    Decoded::Is(form)
}
