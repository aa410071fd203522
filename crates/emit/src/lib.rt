#![tactic(auto)]

//! The second pass: the words of the data and of the instructions, counted, or put into three lent slices.
//! It goes by the lines that the first pass kept; only an instruction's text is read again, in the manual's call by `codes`.
ghost use Rattle.std.specs.Prelude.{◌≡◌, length};
ghost use Rattle.rules.specs.Line.{size};
ghost use Rattle.rules.specs.Encode.{encode_by};
ghost use Rattle.rules.specs.Assemble.{slices, code_places_by, second_pass_by};
ghost use Rattle.encode.specs.Code.{places_of, code_length};
ghost use Rattle.first.specs.Pass.{pass_in, HoldsBy};
ghost use Rattle.emit.specs.Places.{placed, Stored, Holds};
ghost use Rattle.emit.specs.Emit.{names_of, encoder_of, put_of, CodeNeeds, PutInstructionNeeds, EmitWordsNeeds};

use crate::places::Places;
use encode::Code;
use first::Pass;
use label::Labels;
use line::Task;

pub mod places; // places.rt: the places of a list, in three lent slices
pub mod codes; // codes.rt: the codes of the manual's call, looked for a fault and kept

/// Whose words the instructions have.
// No `Result` or `Option`: the two are ways to a word, and neither is the other's lack or failure. No `==`: it is handed on, and never
// compared.
#[derive(Clone, Copy)]
pub enum Encoding<'a> {
    /// Those of `encode`, by the names in use (`branches`).
    Named(Option<&'a [u8]>),
    /// Those of the manual's call, as `find_fault` kept them.
    Kept(&'a [u32]),
}

// ---- One line.

// The code of a task; only an instruction has one. It is inlined where words are counted and where they are put: a call would hand task
// and code through memory, 6 in 100 of the instructions of a script.
#[inline(always)]
fn code_at(names: Option<&[u8]>, labels: &Labels<'_>, address: u32, task: Task) -> Option<Code>
    requires { CodeNeeds labels.now address task }
    ensures { places_of address result ≡ code_places_by (encode_by (names_of names.entry)) labels.now.table (put_of labels.now.source address task) }
{
    match task {
        Task::Instruction(span) => {
            let source = labels.source();
            encode::encode_instruction(names, labels, address, &source[span.start..span.end])
        }
        _ => None,
    }
}

// How many words a code has. Of one `match` with 1, 2 and 2 the compiler makes a table of them.
fn code_words(code: Option<Code>) -> usize
    ensures { result ≡ code_length code }
{
    match code {
        None => 0,
        Some(code) => 1 + usize::from(!matches!(code, Code::Word(_))),
    }
}

// How many words a task's instruction has.
fn words_at(names: Option<&[u8]>, labels: &Labels<'_>, address: u32, task: Task) -> usize
    requires { CodeNeeds labels.now address task }
    ensures { result ≡ length (code_places_by (encode_by (names_of names.entry)) labels.now.table (put_of labels.now.source address task)) }
{
    code_words(code_at(names, labels, address, task))
}

// Where the second pass stands: the address of the line, and the places after its data words and, in the rest, its instruction words.
#[derive(Clone, Copy, Debug, PartialEq, Eq, Hash)]
struct Turn {
    address: u32,
    values: usize,
    codes: usize,
}

// The words of line k's instruction, encoded from its text, or as they are kept, into the rest of the slices after the data
// words, which is lent: so three slices and no `Places`. The place after them.
fn put_instruction(
    encoding: Encoding<'_>,
    labels: &Labels<'_>,
    k: usize,
    turn: Turn,
    task: Task,
    addresses: &mut [u32],
    words: &mut [u16],
    marks: &mut [u8],
) -> usize
    requires { PutInstructionNeeds encoding labels.now k turn task (slices addresses.old words.old marks.old) }
    ensures { Stored turn.codes (code_places_by (encoder_of encoding.entry) labels.now.table (put_of labels.now.source turn.address task)) (slices addresses.old words.old marks.old) result (slices addresses.new words.new marks.new) }
{
    let mut rest = Places::new(addresses, words, marks);
    match encoding {
        Encoding::Named(names) => {
            let code = code_at(names, labels, turn.address, task);
            rest.put_code(turn.codes, turn.address, code)
        }
        Encoding::Kept(cells) => {
            rest.put_manual(turn.codes, turn.address, codes::kept_code(cells, k))
        }
    }
}

// ---- All lines.

/// How many words the list has, by the names in use.
pub fn count_words(names: Option<&[u8]>, labels: &Labels<'_>, cells: &[u32], pass: Pass) -> usize
    requires { HoldsBy size labels.now cells.now pass }
    ensures { result ≡ length (second_pass_by (encode_by (names_of names.entry)) (pass_in labels.now cells.now pass)) }
{
    let mut address = pass.base;
    let mut count = pass.values;
    // By number: a line's cells are found by it.
    for line in 0..pass.lines {
        let kept = cells::kept_line(cells, line);
        count += words_at(names, labels, address, kept.task);
        // By `as`: an accepted line's address has 32 bits.
        address = cells::address_after(kept, pass.base, address) as u32;
    }
    count
}

/// Puts the words of the list, the data's first; how many there are.
pub fn emit_words(
    encoding: Encoding<'_>,
    labels: &Labels<'_>,
    cells: &[u32],
    pass: Pass,
    places: &mut Places<'_>,
) -> usize
    requires { EmitWordsNeeds encoding labels.now cells.now pass (placed places.old) }
    ensures value { result ≡ length (second_pass_by (encoder_of encoding.entry) (pass_in labels.now cells.now pass)) }
    ensures list { Holds (second_pass_by (encoder_of encoding.entry) (pass_in labels.now cells.now pass)) places.old places.new }
{
    let rest = pass.values;
    let mut turn = Turn {
        address: pass.base,
        values: 0,
        codes: 0,
    };
    // By number, as in `count_words`.
    for k in 0..pass.lines {
        let kept = cells::kept_line(cells, k);
        let values = places.put_value(turn.values, turn.address, kept.task);
        let codes = put_instruction(
            encoding,
            labels,
            k,
            turn,
            kept.task,
            &mut places.addresses[rest..],
            &mut places.words[rest..],
            &mut places.marks[rest..],
        );
        turn = Turn {
            // By `as`, as in `count_words`.
            address: cells::address_after(kept, pass.base, turn.address) as u32,
            values,
            codes,
        };
    }
    rest + turn.codes
}
