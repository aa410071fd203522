//! The names that words give files. A word that was no UTF-8 ends in byte 0, and names none.
ghost use Rattle.std.specs.Prelude.{◌≡◌, find, map, option_map};
ghost use Rattle.asked.specs.Names.{is_broken, shown, input_of, broken, unread, unwritten};

use commandline::Asked;

/// Whether a name was no UTF-8, by the byte 0 at its end.
pub fn is_broken(name: &str) -> bool
    ensures { result ≡ is_broken name.now }
{
    match name.as_bytes().last() {
        Some(last) => *last == 0,
        None => false,
    }
}

/// A text as it is printed: without the byte 0 at its end.
pub fn shown(text: &[u8]) -> &[u8]
    ensures { result.now ≡ shown text.now }
{
    match text.split_last() {
        Some((last, rest)) if *last == 0 => rest,
        _ => text,
    }
}

// The first of the names that was no UTF-8, as it stands among them.
fn found_broken<'a>(names: &[&'a str]) -> Option<&'a str>
    ensures { result ≡ find (λ s. is_broken s.now) names.now }
{
    names.iter().copied().find(|name| is_broken(name))
}

// The same by its text.
#[tactic(auto, using(crate::proofs::Texts::found_at))]
fn first_broken<'a>(names: &[&'a str]) -> Option<&'a str>
    ensures { option_map (λ s. s.now) result ≡ find is_broken (map (λ s. s.now) names.now) }
{
    found_broken(names)
}

/// FILE as an input: `-` is standard input, which has no name.
pub fn input_of(name: &str) -> Option<&str>
    ensures { option_map (λ s. s.now) result ≡ input_of name.now }
{
    if name == "-" { None } else { Some(name) }
}

// The name, where it was no UTF-8.
fn broken<'a>(name: Option<&'a str>) -> Option<&'a str>
    ensures { option_map (λ s. s.now) result ≡ broken (option_map (λ s. s.now) name.entry) }
{
    match name {
        Some(name) if is_broken(name) => Some(name),
        _ => None,
    }
}

/// The first name of a file to be read that was no UTF-8: the branch table's, a sheet's, FILE.
pub fn unread<'a>(asked: &Asked<'a>) -> Option<&'a str>
    ensures { option_map (λ s. s.now) result ≡ unread asked.now }
{
    match broken(asked.branches) {
        Some(name) => Some(name),
        None => match first_broken(asked.sheets.as_slice()) {
            Some(name) => Some(name),
            None => first_broken(asked.files.as_slice()),
        },
    }
}

/// The name of the output, where it was no UTF-8.
pub fn unwritten<'a>(asked: &Asked<'a>) -> Option<&'a str>
    ensures { option_map (λ s. s.now) result ≡ unwritten asked.now }
{
    broken(asked.output)
}
