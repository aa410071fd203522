//! What takes refusals, verdicts and answers as numbers too: each call at those types, with its clause in numbers.
ghost use Rattle.std.specs.Prelude.{◌≡◌, ◌≤◌, map, take, drop, length, IfOk};
ghost use Rattle.rules.specs.Limits.{max_lines};
ghost use Rattle.rules.specs.Assemble.{slices};
ghost use Rattle.rules.specs.Tally.{moves};
ghost use Rattle.requests.specs.Explain.{explain_all};
ghost use Rattle.answer.specs.Refusal.{answer_of};
ghost use Rattle.explain.specs.Verdict.{verdict_number, numbered_verdict, count_of, written_as};
ghost use Rattle.moves.specs.Moves.{answer_from, told, slices_after, IsTally, IsPairsTally};
ghost use Rattle.station.specs.Station.{answer_text};
ghost use Rattle.station.specs.Printed.{Printed};
ghost use Rattle.station.specs.Refused.{answer_by};
ghost use Rattle.whytext.specs.Verdicts.{explained_text, counted_by};
ghost use Rattle.sheettext.specs.Steps.{outcome_by, step_text};

use answer::Refusal;
use explain::{Verdict, explain_lines};
use moves::relocate_all;
use rules::MAX_LINES;
use sheettext::{SHEET, Step, Stop, step_text};
use station::{PLACES, TEXT, write_answer};
use std::test::Fail;
use whytext::{write_counted, write_explained};

// The line of a verdict, or of whatever number and place.
fn explained(told: Result<Verdict, (u8, usize)>, out: &mut [u8; TEXT]) -> usize
    ensures { Printed (explained_text (answer_by (λ r. r.0) (λ r. r.1) told)) result out.old out.new }
{
    write_explained(told, out)
}

// The rows of as many verdicts, by their numbers, or the line of whatever number and place.
fn counted(told: Result<usize, (u8, usize)>, verdicts: &[u8], out: &mut [u8; TEXT]) -> usize
    requires { IfOk told (λ n. (n ≤ length verdicts.now) × (n ≤ max_lines)) }
    ensures { Printed (counted_by numbered_verdict (answer_by (λ r. r.0) (λ r. r.1) told) verdicts.now) result out.old out.new }
{
    write_counted(told, verdicts, out)
}

// The text of a list, or the line of whatever number and place.
fn answered(
    answer: Result<usize, (u8, usize)>,
    addresses: &[u32; PLACES],
    words: &[u16; PLACES],
    marks: &[u8; PLACES],
    out: &mut [u8; TEXT],
) -> usize
    ensures { Printed (answer_text (answer_by (λ r. r.0) (λ r. r.1) answer) (slices addresses.now words.now marks.now)) result out.old out.new }
{
    write_answer(answer, addresses, words, marks, out)
}

// A step's text, where a refusal is whatever number and place.
fn stepped(step: Step<(u8, usize)>, out: &mut [u8; SHEET]) -> usize
    ensures { Printed (step_text (outcome_by (λ r. r.0) (λ r. r.1) step)) result out.old out.new }
{
    step_text(step, out)
}

// The verdicts of every line that is read, by their numbers, over whatever stood there.
fn numbers(source: &[u8], base: u32, verdicts: &mut [u8; MAX_LINES]) -> Result<usize, Refusal>
    ensures value { answer_of result ≡ count_of (explain_all base source.now) }
    ensures verdicts_after { verdicts.new ≡ written_as verdict_number (explain_all base source.now) verdicts.old }
{
    explain_lines(source, base, verdicts)
}

// Each move's number and place: 0 and the count, or a refusal's.
fn moved(
    addresses: &mut [u32],
    words: &mut [u16],
    marks: &[u8],
    count: usize,
    distances: &[i32],
    answers: &mut [(u8, usize)],
)
    requires { length distances.now ≤ length answers.old }
    ensures slices { slices addresses.new words.new marks.now ≡ slices_after count (slices addresses.old words.old marks.now) distances.now }
    ensures answers { map (λ r. answer_from r.0 r.1) (take (length distances.now) answers.new) ≡ told (moves count (slices addresses.old words.old marks.now) distances.now) }
    ensures others { drop (length distances.now) answers.new ≡ drop (length distances.now) answers.old }
    ensures follows { IsTally (slices addresses.old words.old marks.now) count distances.now (slices addresses.new words.new marks.now) (map (λ r. answer_from r.0 r.1) (take (length distances.now) answers.new)) }
    ensures pairs { IsPairsTally (slices addresses.old words.old marks.now) count distances.now (slices addresses.new words.new marks.now) (map (λ r. answer_from r.0 r.1) (take (length distances.now) answers.new)) }
{
    relocate_all(addresses, words, marks, count, distances, answers);
}

#[test]
fn a_line_of_any_refusal(rt: HostRuntime) -> Result<(), Fail> {
    let mut out = [0u8; TEXT];
    let size = explained(Err((200, 5)), &mut out);
    assert_eq!(rt; &out[..size], b"refused 200 5\n".as_slice());
    let size = explained(Ok(Verdict::BadDigit), &mut out);
    assert_eq!(rt; &out[..size], b"number: bad digit\n".as_slice());
    Ok(())
}

#[test]
fn rows_by_numbers(rt: HostRuntime) -> Result<(), Fail> {
    let mut out = [0u8; TEXT];
    let size = counted(Ok(2), &[0, 9, 1], &mut out);
    let want = b"1 word emitted\n2 displacement out of range\n";
    assert_eq!(rt; &out[..size], want.as_slice());
    let size = counted(Err((0, 1234567)), &[], &mut out);
    assert_eq!(rt; &out[..size], b"refused 0 1234567\n".as_slice());
    Ok(())
}

#[test]
fn an_answer_of_any_refusal(rt: HostRuntime) -> Result<(), Fail> {
    let mut addresses = [0u32; PLACES];
    let mut words = [0u16; PLACES];
    let mut marks = [0u8; PLACES];
    addresses[0] = 0x1000;
    words[0] = 0x7203;
    marks[0] = 1;
    let mut out = [0u8; TEXT];
    let size = answered(Ok(1), &addresses, &words, &marks, &mut out);
    assert_eq!(rt; &out[..size], b"00001000 7203 1\n".as_slice());
    let size = answered(Err((99, 12345)), &addresses, &words, &marks, &mut out);
    assert_eq!(rt; &out[..size], b"refused 99 12345\n".as_slice());
    Ok(())
}

#[test]
fn a_step_of_any_refusal(rt: HostRuntime) -> Result<(), Fail> {
    let mut out = [0u8; SHEET];
    let size = stepped(Err(Stop::Refused((255, 2000000))), &mut out);
    assert_eq!(rt; &out[..size], b"refused 255 2000000\n".as_slice());
    Ok(())
}

#[test]
fn verdicts_by_numbers(rt: HostRuntime) -> Result<(), Fail> {
    let mut verdicts = [77u8; MAX_LINES];
    let answer = numbers(
        b"NOP\n; note\nMOVE.L LIM,D2\nMOVEQ #$G,D0",
        0,
        &mut verdicts,
    );
    assert!(rt; matches!(answer, Ok(4)));
    assert_eq!(rt; &verdicts[..5], [0, 1, 8, 6, 77].as_slice());
    Ok(())
}

#[test]
fn moves_by_numbers(rt: HostRuntime) -> Result<(), Fail> {
    let mut addresses = [0x1000, 0x1002];
    let mut words = [0x1002, 0x1002];
    let mut answers = [(77u8, 77usize); 3];
    moved(
        &mut addresses,
        &mut words,
        &[1, 0],
        2,
        &[0x40000000, 0x2000],
        &mut answers,
    );
    assert_eq!(rt; answers[0].0, 8);
    assert_eq!(rt; answers[0].1, 0);
    assert_eq!(rt; answers[1].0, 0);
    assert_eq!(rt; answers[1].1, 2);
    assert_eq!(rt; answers[2].0, 77);
    assert_eq!(rt; words[0], 0x3002);
    assert_eq!(rt; words[1], 0x1002);
    assert_eq!(rt; addresses[1], 0x3002);
    Ok(())
}
