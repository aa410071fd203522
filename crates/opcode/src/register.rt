//! Registers as operands: "Dn or An is two bytes, upper case, digit 0 to 7", and (An).
ghost use Rattle.std.specs.Prelude.{◌≡◌, [], ◌∷◌, Some};
ghost use Rattle.rules.specs.Text.{after};
ghost use Rattle.rules.specs.Encode.{register_digit, data_register, address_register, indirect};
ghost use Rattle.rules.specs.Forms.{kind_of};
ghost use Rattle.opcode.specs.Kind.{operand_kind};

use numeral::digit::digit_value;

/// An operand's kind: `#`, Dn, An, (An) or other text.
#[derive(Clone, Copy, Debug, PartialEq, Eq, Hash)]
pub enum OperandKind {
    Hash,
    Dn,
    An,
    AtAn,
    Text,
}

// The register of a digit 0 to 7.
#[tactic(auto, using(crate::proofs::Registers::digit, crate::proofs::Registers::no_digit))]
fn from_digit(b: u8) -> Option<u16>
    ensures { result ≡ register_digit (Some (b ∷ [])) }
{
    let d = digit_value(b);
    (d < 8).then_some(u16::from(d))
}

// The letter, then a digit.
#[tactic(auto, using(crate::proofs::Registers::not_two, crate::proofs::Registers::other_letter, crate::proofs::Registers::letter_first))]
fn parse_register(t: &[u8], letter: u8) -> Option<u16>
    ensures { result ≡ register_digit (after (letter ∷ []) t.now) }
{
    match t {
        [first, digit] if *first == letter => from_digit(*digit),
        _ => None,
    }
}

/// The number of Dn; None where the operand is none.
#[tactic(auto, unfolding(rules::specs::Encode::data_register, rules::specs::Text::bytes))]
pub fn parse_data_register(t: &[u8]) -> Option<u16>
    ensures { result ≡ data_register t.now }
{
    parse_register(t, b'D')
}

/// The number of An; None where the operand is none.
#[tactic(auto, unfolding(rules::specs::Encode::address_register, rules::specs::Text::bytes))]
pub fn parse_address_register(t: &[u8]) -> Option<u16>
    ensures { result ≡ address_register t.now }
{
    parse_register(t, b'A')
}

/// The number of (An); None where the operand is none.
#[tactic(auto, using(crate::proofs::Registers::not_four, crate::proofs::Registers::other_open, crate::proofs::Registers::other_inner, crate::proofs::Registers::other_close, crate::proofs::Registers::digit_inside))]
pub fn parse_indirect_register(t: &[u8]) -> Option<u16>
    ensures { result ≡ indirect t.now }
{
    match t {
        [b'(', b'A', digit, b')'] => from_digit(*digit),
        _ => None,
    }
}

/// An operand's kind, by its text alone.
#[tactic(auto, unfolding(rules::specs::Forms::kind_of, rules::specs::Encode::is_some, rules::specs::Text::bytes))]
pub fn kind_of(s: &[u8]) -> OperandKind
    ensures { result ≡ operand_kind (kind_of s.now) }
{
    if text::starts_with(s, b"#") {
        OperandKind::Hash
    } else if parse_data_register(s).is_some() {
        OperandKind::Dn
    } else if parse_address_register(s).is_some() {
        OperandKind::An
    } else if parse_indirect_register(s).is_some() {
        OperandKind::AtAn
    } else {
        OperandKind::Text
    }
}
