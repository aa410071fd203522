//! The words after the program's name, as text.
ghost use Rattle.std.specs.Prelude.{◌≡◌, map, option_map, IfOk, IfSome, string_bytes};
ghost use Rattle.cli_args.specs.Words.{WordAt, word_text, words_behind};

use console::Arguments;
use std::alloc::{AllocError, Global};
use std::env::FillError;

// How many bytes are made for a word at first.
const FIRST: usize = 256;

// Word k, as long as it is; none where there is no such word.
fn word_at<A: Arguments>(
    alloc: Global,
    arguments: &A,
    k: usize,
) -> Result<Option<Vec<u8>>, AllocError>
    ensures { IfOk result (λ word. IfSome (A.known arguments.now) (λ known. WordAt known k (option_map (λ bytes. bytes.items) word))) }
{
    let mut size = FIRST;
    for _step in 0..52 {
        let mut bytes = vec![in alloc; 0u8; size]?;
        match arguments.put(k, bytes.as_mut_slice()) {
            Ok(length) => {
                bytes.truncate(length);
                return Ok(Some(bytes));
            }
            Err(FillError::NotPresent) => return Ok(None),
            Err(FillError::TooLong) => size = size.saturating_mul(2),
        }
    }
    Err(AllocError)
}

/// A word as text: its own where that is UTF-8. Another has a sign in the place of each wrong byte, and byte 0 after it, which no word has:
/// so no option, number or file has its name.
pub fn word_text(alloc: Global, bytes: &[u8]) -> Result<String, AllocError>
    ensures { IfOk result (λ text. string_bytes text ≡ word_text bytes.now) }
{
    let mut text = String::from_utf8_lossy(alloc, bytes)?;
    if text.as_bytes() != bytes {
        text.push('\0')?;
    }
    Ok(text)
}

/// Whether a word was UTF-8, by its text.
pub fn is_whole(text: &str) -> bool {
    !text.ends_with('\0')
}

/// The words after the program's name.
#[tactic(auto, using(crate::proofs::Behind::begins, crate::proofs::Behind::steps, crate::proofs::Behind::ends))]
pub fn words_of<A: Arguments>(alloc: Global, arguments: &A) -> Result<Vec<String>, AllocError>
    ensures { IfOk result (λ words. IfSome (A.known arguments.now) (λ known. map (λ t. string_bytes t) words.items ≡ words_behind known)) }
{
    let mut words = Vec::new(alloc);
    for k in 1..usize::MAX {
        let Some(bytes) = word_at(alloc, arguments, k)? else {
            return Ok(words);
        };
        words.push(word_text(alloc, bytes.as_slice())?)?;
    }
    Err(AllocError)
}
