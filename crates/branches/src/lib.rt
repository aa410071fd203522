#![tactic(auto)]

//! Our own branch names: a lent table is checked whole, and a mnemonic is looked up in its bytes, of which nothing is copied.
ghost use Rattle.std.specs.Prelude.{◌≡◌, ◌&&◌, ◌≤◌, ◌<◌, ◌+◌, ◌*◌, leb, length};
ghost use Rattle.std.specs.Bool.{OnFalse};
ghost use Rattle.std.specs.List.{list_any};
ghost use Rattle.std.specs.Option.{option_copied};
ghost use Rattle.rules.specs.Text.{uppers, same};
ghost use Rattle.rules.specs.Encode.{mnemonics, operation_in};
ghost use Rattle.requests.specs.Branches.{is_end, four_of, unpadded, broken, earlier, misnamed, checked, rows, names_with};
ghost use Rattle.answer.specs.Refusal.{answer_of};
ghost use Rattle.opcode.specs.Operation.{operation_of};
ghost use Rattle.branches.specs.Branch.{is_other, Whole, names_in};

use answer::Refusal;
use opcode::mnemonic::Operation;

// Rows of a table, at most.
const ROWS: usize = 16;

// ---- Commands: the k-th, from 0, is at 6 * k.

// Whether it ends the table.
#[tactic(auto, unfolding(requests::specs::Branches::is_end))]
fn is_end(bytes: &[u8], k: usize) -> bool
    requires { k ≤ 16 }
    ensures { result ≡ is_end bytes.now k }
{
    6 * k < bytes.len() && bytes[6 * k] == 0
}

// Whether it is no row, cut off, or has a condition over 15.
#[tactic(auto, unfolding(requests::specs::Branches::broken, requests::specs::Branches::is_row, requests::specs::Branches::condition_of))]
fn is_broken(bytes: &[u8], k: usize) -> bool
    requires { k ≤ 16 }
    ensures broken { result ≡ broken bytes.now k }
    ensures whole { OnFalse result (6 * k + 5 < length bytes.now) }
{
    bytes.len() <= 6 * k + 5 || bytes[6 * k] != 1 || 15 < bytes[6 * k + 5]
}

// ---- The name of a row.

// Its four bytes.
#[tactic(auto, using(crate::proofs::Laws::four_part))]
fn name_of(bytes: &[u8], k: usize) -> &[u8]
    requires { Whole bytes.now k }
    ensures { result.now ≡ four_of bytes.now k }
{
    &bytes[6 * k + 1..6 * k + 5]
}

// The name without the padding.
#[tactic(auto, using(crate::proofs::Laws::last_space, crate::proofs::Laws::last_kept, crate::proofs::Laws::none_kept))]
fn unpadded(mut name: &[u8]) -> &[u8]
    ensures { result.now ≡ unpadded name.now }
{
    // One space after another: std's trims take other blanks too.
    while let [rest @ .., b' '] = name {
        name = rest;
    }
    name
}

// Whether a byte is a lower-case letter.
fn is_lower(b: u8) -> bool
    ensures { result ≡ (leb 97 b && leb b 122) }
{
    b.is_ascii_lowercase()
}

// Whether one of the bytes is.
fn has_lower(name: &[u8]) -> bool
    ensures { result ≡ list_any (λ b. leb 97 b && leb b 122) name.now }
{
    name.iter().any(|&b| is_lower(b))
}

// Whether a row before the k-th has its four bytes.
// By number, as all loops over rows here: the definitions name a row by its number.
fn is_earlier(bytes: &[u8], k: usize) -> bool
    requires { Whole bytes.now k }
    ensures { result ≡ earlier bytes.now (four_of bytes.now k) k }
{
    let name = name_of(bytes, k);
    (0..k).any(|n| name_of(bytes, n) == name)
}

// Whether a mnemonic that names this is one other than the eleven.
fn is_other(o: Option<Operation>) -> bool
    ensures { result ≡ is_other o }
{
    match o {
        None | Some(Operation::Branch(_)) => false,
        Some(_) => true,
    }
}

// Whether the name may not stand in row k.
#[tactic(auto, using(crate::proofs::Laws::named_is))]
fn is_misnamed(bytes: &[u8], k: usize) -> bool
    requires { Whole bytes.now k }
    ensures { result ≡ misnamed bytes.now k }
{
    let name = name_of(bytes, k);
    text::is_blank(bytes[6 * k + 1])
        || has_lower(name)
        || is_earlier(bytes, k)
        || is_other(opcode::mnemonic::find_operation(unpadded(name)))
}

// ---- The table.

/// Checks a table whole: how many rows it has, or why the first faulty command is refused.
#[tactic(auto, using(crate::proofs::Laws::checking_start, crate::proofs::Laws::check_end, crate::proofs::Laws::check_full, crate::proofs::Laws::check_past, crate::proofs::Laws::check_broken, crate::proofs::Laws::check_misnamed, crate::proofs::Laws::check_more))]
pub fn load_branches(bytes: &[u8]) -> Result<usize, Refusal>
    ensures { answer_of result ≡ checked bytes.now }
{
    // By number: a row stands at six times it, and a fault tells it; a table may end before `ROWS`.
    for k in 0..ROWS {
        if is_end(bytes, k) {
            return Ok(k);
        }
        if is_broken(bytes, k) {
            return Err(Refusal::BadCommand(6 * k));
        }
        if is_misnamed(bytes, k) {
            return Err(Refusal::BadBranchName(6 * k));
        }
    }
    if is_end(bytes, ROWS) {
        Ok(ROWS)
    } else {
        Err(Refusal::BadCommand(6 * ROWS))
    }
}

// Whether a mnemonic, in either case, is the name of row k, whole.
fn is_named(bytes: &[u8], k: usize, mnemonic: &[u8]) -> bool
    requires { Whole bytes.now k }
    ensures { result ≡ same (uppers mnemonic.now) (unpadded (four_of bytes.now k)) }
{
    text::same_upper(mnemonic, unpadded(name_of(bytes, k)))
}

// What a mnemonic names in the table's rows; a row with a condition over 15 is none.
#[tactic(auto, using(crate::proofs::Laws::looking_start, crate::proofs::Laws::look_past, crate::proofs::Laws::look_end, crate::proofs::Laws::look_hit, crate::proofs::Laws::look_more))]
fn find_branch_in(bytes: &[u8], mnemonic: &[u8]) -> Option<Operation>
    ensures { result ≡ operation_of (operation_in (rows bytes.now) (uppers mnemonic.now)) }
{
    // By number, as in `load_branches`.
    for k in 0..ROWS {
        if is_broken(bytes, k) {
            return None;
        }
        if is_named(bytes, k, mnemonic) {
            return Some(Operation::Branch(bytes[6 * k + 5]));
        }
    }
    None
}

// What a mnemonic names under a table: the table's rows stand in place of the eleven.
#[tactic(auto, using(crate::proofs::Others::under_other, crate::proofs::Others::under_rows))]
#[inline(never)]
fn find_operation_in(bytes: &[u8], mnemonic: &[u8]) -> Option<Operation>
    ensures { result ≡ operation_of (operation_in (names_with (rows bytes.now)) (uppers mnemonic.now)) }
{
    let o = opcode::mnemonic::find_operation(mnemonic);
    if is_other(o) {
        return o;
    }
    find_branch_in(bytes, mnemonic)
}

/// What a mnemonic names by the names in use: under the table that is lent, or by the stations' where none is; None where it names nothing.
// Inlined but for the look at a table, which few calls have.
#[tactic(auto, unfolding(crate::specs::Branch::names_in))]
#[inline(always)]
pub fn find_operation_by(names: Option<&[u8]>, mnemonic: &[u8]) -> Option<Operation>
    ensures { result ≡ operation_of (operation_in (names_in (option_copied names.entry)) (uppers mnemonic.now)) }
{
    match names {
        Some(bytes) => find_operation_in(bytes, mnemonic),
        None => opcode::mnemonic::find_operation(mnemonic),
    }
}
