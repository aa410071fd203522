#![tactic(auto)]

//! What the number of a line said: of ORG, and of data with `DC.`; by the readers of the first pass.
ghost use Rattle.std.specs.Prelude.{◌≡◌};
ghost use Rattle.rules.specs.Text.{leading};
ghost use Rattle.rules.specs.Directive.{data_reading, after_colon, line_reading};
ghost use Rattle.directive.specs.Directive.{line_number_of};

use numeral::Failure;

// Step 5: with `DC.` in the text, the number of its directive.
fn data_number(t: &[u8]) -> Option<Result<u32, Failure>>
    requires { leading t.now ≡ 0 }
    ensures { result ≡ line_number_of (data_reading t.now) }
{
    if !text::contains_upper(t, b"DC.") {
        return None;
    }
    let head = line::data_head(t);
    Some(line::second_value(t, head.directive))
}

// Step 4: what goes on, after a label or without one.
fn after_label(t: &[u8]) -> &[u8]
    ensures { result.now ≡ after_colon t.now }
{
    match text::find_byte(t, b':') {
        Some(colon) => text::trimmed(&t[colon + 1..]),
        None => t,
    }
}

/// What the number of a line said, by steps 1 to 5; None where the line reads no number.
pub fn line_number(line: &[u8]) -> Option<Result<u32, Failure>>
    ensures { result ≡ line_number_of (line_reading line.now) }
{
    let t = text::trimmed(line);
    if t.is_empty() || t[0] == b';' || text::starts_upper(t, b"END") {
        return None;
    }
    if text::starts_upper(t, b"ORG") {
        return Some(line::second_number(t, 0));
    }
    data_number(after_label(t))
}
