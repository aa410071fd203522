#![tactic(auto)]

//! The mover: it relocates a list in place, by a signed distance.
ghost use Rattle.std.specs.Prelude.{◌≡◌, ◌+◌, ◌/◌, ◌^◌, ◌<◌, ◌≤◌, Result, All, OnOk, OnErr, false, length, map, take, IfOk, max, fold, slice_index, ◌∷◌, pos, ◌+ℤ◌, nat_lt, position, if◌then◌else◌, nat_eq};
ghost use Rattle.std.specs.List.{list_any};
ghost use Rattle.std.specs.Result.{result_map_both};
ghost use Rattle.rules.specs.Number.{modulo};
ghost use Rattle.rules.specs.Relocate.{far, moved_address, added_word, added_high, moved_word, bad_mark, first_bad_mark, move_addresses, move_words, move_answer, move_slices};
ghost use Rattle.rules.specs.Assemble.{slices};
ghost use Rattle.answer.specs.Refusal.{answer_of};
ghost use Rattle.relocate.specs.Moves.{leaving};

use answer::Refusal;

/// A distance of this or more, either way, is refused.
const DISTANCE_LIMIT: u32 = 1 << 30;

/// The highest address that a place may be moved to.
const LAST_ADDRESS: i64 = (1 << 30) + 1;

#[tactic(auto, unfolding(rules::specs::Relocate::far))]
fn is_far(distance: i32) -> bool
    ensures { result ≡ far distance }
{
    distance.unsigned_abs() >= DISTANCE_LIMIT
}

fn sum(address: u32, distance: i32) -> i64
    ensures { result ≡ pos address +ℤ distance }
{
    i64::from(address) + i64::from(distance)
}

/// Whether a move takes an address out of the range of addresses.
fn leaves(address: u32, distance: i32) -> bool
    ensures { result ≡ leaving distance address }
{
    let moved = sum(address, distance);
    moved < 0 || moved > LAST_ADDRESS
}

fn moved_address(address: u32, distance: i32) -> u32
    requires { leaving distance address ≡ false }
    ensures { result ≡ moved_address distance address }
{
    // By `as`: an address that does not leave has 32 bits.
    sum(address, distance) as u32
}

/// The low word of a distance modulo 2^32.
// By `as`, here and in `upper`: a remainder and a quotient by 65,536 have 16 bits.
#[tactic(auto, using(crate::proofs::Signed::low_by))]
fn reduced(distance: i32) -> u16
    ensures { result ≡ modulo 65536 distance }
{
    (distance.cast_unsigned() % 65536) as u16
}

/// The high word of a distance modulo 2^32.
#[tactic(auto, using(crate::proofs::Signed::upper_by))]
fn upper(distance: i32) -> u16
    ensures { result ≡ modulo (2 ^ 32) distance / 65536 }
{
    (distance.cast_unsigned() / 65536) as u16
}

/// What the sum of two low words carries into the high word.
fn carry(low: u16, more: u16) -> u16
    ensures { result ≡ (low + more) / 65536 }
{
    u16::from(low.wrapping_add(more) < more)
}

/// The high word of a pair, moved: the pair is one number, and the sum wraps at 2^32.
#[tactic(auto, using(crate::proofs::Signed::high_by))]
fn moved_high(high: u16, low: u16, distance: i32) -> u16
    ensures { result ≡ added_high distance high low }
{
    high.wrapping_add(upper(distance))
        .wrapping_add(carry(low, reduced(distance)))
}

/// A word, moved as its mark says; a pair's high word by the next word too.
#[tactic(auto, unfolding(rules::specs::Relocate::moved_word, rules::specs::Relocate::added_word))]
fn moved_word(word: u16, mark: u8, next: u16, distance: i32) -> u16
    ensures { result ≡ moved_word distance mark word next }
{
    match mark {
        0 => word,
        2 => moved_high(word, next, distance),
        _ => word.wrapping_add(reduced(distance)),
    }
}

/// Whether the mark at `i` is over 3, a 2 without its 3 or a 3 without its 2.
#[tactic(auto, unfolding(rules::specs::Relocate::bad_mark))]
fn is_bad(marks: &[u8], i: usize) -> bool
    requires { i < length marks.now }
    ensures { result ≡ bad_mark (slice_index (0 ∷ marks.now) i) (slice_index marks.now i) (slice_index marks.now (i + 1)) }
{
    // 0 and 1 first: a `match` alone would ask for the rare marks before them.
    marks[i] > 1
        && match marks[i] {
            2 => marks.get(i + 1) != Some(&3),
            3 => i == 0 || marks[i - 1] != 2,
            _ => true,
        }
}

/// The highest mark, with many looked at at a time.
fn top_mark(marks: &[u8]) -> u8
    ensures { result ≡ fold max 0 marks.now }
{
    marks.iter().fold(0, |top, &mark| top.max(mark))
}

#[tactic(auto, using(crate::proofs::Pairs::over_top))]
fn has_pairs(marks: &[u8]) -> bool
    ensures { result ≡ list_any (λ m. nat_lt 1 m) marks.now }
{
    top_mark(marks) > 1
}

/// The first bad mark; there is none without pairs.
// `pairs` is asked once, by `check`: `has_pairs` looks at every mark.
fn first_bad_mark(marks: &[u8], pairs: bool) -> Option<usize>
    requires { pairs ≡ list_any (λ m. nat_lt 1 m) marks.now }
    ensures { result ≡ first_bad_mark 0 0 (length marks.now) marks.now }
{
    if !pairs {
        return None;
    }
    // No `position` with `is_bad`: its proof did not close.
    for i in 0..marks.len() {
        if is_bad(marks, i) {
            return Some(i);
        }
    }
    None
}

fn first_outside(addresses: &[u32], distance: i32) -> Option<usize>
    ensures { result ≡ position (leaving distance) addresses.now }
{
    addresses
        .iter()
        .position(|&address| leaves(address, distance))
}

fn move_addresses(addresses: &mut [u32], distance: i32)
    requires { All (λ a. leaving distance a ≡ false) addresses.old }
    ensures { addresses.new ≡ map (moved_address distance) addresses.old }
{
    for address in addresses.iter_mut() {
        *address = moved_address(*address, distance);
    }
}

/// A word of a list without pairs, moved if it is marked.
#[tactic(auto, unfolding(rules::specs::Relocate::added_word))]
fn moved_single(word: u16, mark: u8, distance: i32) -> u16
    ensures { result ≡ (if nat_eq mark 0 then word else added_word distance word) }
{
    if mark == 0 {
        word
    } else {
        word.wrapping_add(reduced(distance))
    }
}

// Apart from `move_pairs`, since it reads no next word and is twice as fast.
fn move_singles(words: &mut [u16], marks: &[u8], distance: i32)
    requires lengths { length words.old ≡ length marks.now }
    requires single { list_any (λ m. nat_lt 1 m) marks.now ≡ false }
    ensures { words.new ≡ move_words distance (length words.old) marks.now words.old }
{
    // By index: of a `zip` with `iter_mut` nothing is known after the loop.
    for i in 0..words.len() {
        words[i] = moved_single(words[i], marks[i], distance);
    }
}

fn move_pairs(words: &mut [u16], marks: &[u8], distance: i32)
    requires { length words.old ≡ length marks.now }
    ensures { words.new ≡ move_words distance (length words.old) marks.now words.old }
{
    let count = words.len();
    if count == 0 {
        return;
    }
    // By index, as in `move_singles`. The last word by itself: with `get` for the next one each place is slower.
    for i in 0..count - 1 {
        words[i] = moved_word(words[i], marks[i], words[i + 1], distance);
    }
    words[count - 1] = moved_word(words[count - 1], marks[count - 1], 0, distance);
}

/// Refuses a move before anything is written, and tells whether the list has pairs.
// The slices and `count` side by side, here and in `relocate`, as C lends them.
#[tactic(auto, using(crate::proofs::Verdict::refuses_8, crate::proofs::Verdict::refuses_9, crate::proofs::Verdict::refuses_10))]
fn check(
    addresses: &[u32],
    words: &[u16],
    marks: &[u8],
    count: usize,
    distance: i32,
) -> Result<bool, Refusal>
    ensures answer { answer_of (result_map_both (λ _. count) (λ e. e) result) ≡ move_answer (slices addresses.now words.now marks.now) count distance }
    ensures pairs { IfOk result (λ pairs. pairs ≡ list_any (λ m. nat_lt 1 m) (take count marks.now)) }
    ensures stay { OnOk result (All (λ a. leaving distance a ≡ false) (take count addresses.now)) }
    ensures addresses { OnOk result (count ≤ length addresses.now) }
    ensures words { OnOk result (count ≤ length words.now) }
    ensures marks { OnOk result (count ≤ length marks.now) }
{
    if is_far(distance) {
        return Err(Refusal::FarDistance);
    }
    if answer::is_short(addresses, words, marks, count) {
        return Err(Refusal::ShortList(count));
    }
    let (addresses, marks) = (&addresses[..count], &marks[..count]);
    let pairs = has_pairs(marks);
    if let Some(i) = first_bad_mark(marks, pairs) {
        return Err(Refusal::BadMark(i));
    }
    if let Some(i) = first_outside(addresses, distance) {
        return Err(Refusal::OutsideAddress(i));
    }
    Ok(pairs)
}

/// Moves a list that has been checked.
// `pairs` as `check` tells it: it is not asked again.
fn move_words(words: &mut [u16], marks: &[u8], distance: i32, pairs: bool)
    requires lengths { length words.old ≡ length marks.now }
    requires pairs { pairs ≡ list_any (λ m. nat_lt 1 m) marks.now }
    ensures { words.new ≡ move_words distance (length words.old) marks.now words.old }
{
    if pairs {
        move_pairs(words, marks, distance);
    } else {
        move_singles(words, marks, distance);
    }
}

/// Moves the list in the first `count` places of the three slices and answers the count, or refuses and changes nothing.
#[tactic(auto, using(crate::proofs::Prefix::addresses_moved, crate::proofs::Prefix::words_moved, crate::proofs::Verdict::stays, crate::proofs::Verdict::moves))]
pub fn relocate(
    addresses: &mut [u32],
    words: &mut [u16],
    marks: &[u8],
    count: usize,
    distance: i32,
) -> Result<usize, Refusal>
    ensures answer { answer_of result ≡ move_answer (slices addresses.old words.old marks.now) count distance }
    ensures count { IfOk result (λ n. n ≡ count) }
    ensures moved_addresses { OnOk result (addresses.new ≡ move_addresses distance count addresses.old) }
    ensures moved_words { OnOk result (words.new ≡ move_words distance count marks.now words.old) }
    ensures kept_addresses { OnErr result (addresses.new ≡ addresses.old) }
    ensures kept_words { OnErr result (words.new ≡ words.old) }
    ensures slices { slices addresses.new words.new marks.now ≡ move_slices (slices addresses.old words.old marks.now) count distance }
{
    let pairs = check(addresses, words, marks, count, distance)?;
    move_addresses(&mut addresses[..count], distance);
    move_words(&mut words[..count], &marks[..count], distance, pairs);
    Ok(count)
}
