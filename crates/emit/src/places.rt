//! The places of a list, in the three slices of the C interface.
ghost use Rattle.std.specs.Prelude.{◌≡◌, ◌∷◌, [], ◌+◌, ◌/◌, ◌%◌, ◌<◌, length};
ghost use Rattle.rules.specs.Limits.{address_limit};
ghost use Rattle.rules.specs.Text.{Text};
ghost use Rattle.rules.specs.Assemble.{place, data_places};
ghost use Rattle.cells.specs.Cells.{data_words};
ghost use Rattle.emit.specs.Places.{Room, placed, Lent, Puts, Taken};
ghost use Rattle.encode.specs.Code.{places_of};
ghost use Rattle.emit.specs.Emit.{put_of};
ghost use Rattle.emit.specs.Codes.{manual_places};

use encode::Code;
use encode_manual::ManualCode;
use line::Task;

/// The places of a list, in three lent slices. It has no model: with one a caller no longer learns what stands in the slices that it lent.
// No `==`: it holds three `&mut`.
#[derive(Drop)]
pub struct Places<'a> {
    pub(crate) addresses: &'a mut [u32],
    pub(crate) words: &'a mut [u16],
    pub(crate) marks: &'a mut [u8],
}

impl<'a> Places<'a> {
    /// The three slices, together.
    pub fn new(addresses: &'a mut [u32], words: &'a mut [u16], marks: &'a mut [u8]) -> Self
        ensures { Lent addresses.entry words.entry marks.entry result }
    {
        Places {
            addresses,
            words,
            marks,
        }
    }

    // One word into place n.
    fn put(&mut self, n: usize, address: u32, word: u16, mark: u8)
        requires { Room (n + 1) (placed self.old) }
        ensures { Puts n (place address word mark ∷ []) self.old self.new }
    {
        self.addresses[n] = address;
        self.words[n] = word;
        self.marks[n] = mark;
    }

    // Two words of a line, the second with its mark.
    fn put_two(&mut self, n: usize, address: u32, word: u16, second: u16, mark: u8)
        requires { (address < address_limit) × Room (n + 2) (placed self.old) }
        ensures { Puts n (place address word 0 ∷ place (address + 2) second mark ∷ []) self.old self.new }
    {
        self.put(n, address, word, 0);
        self.put(n + 1, address + 2, second, mark);
    }

    // Three words of a line: the second and third are the halves of a long, each with its mark.
    fn put_three(&mut self, n: usize, address: u32, word: u16, long: u32, high: u8, low: u8)
        requires { (address < address_limit) × Room (n + 3) (placed self.old) }
        ensures { Puts n (place address word 0 ∷ place (address + 2) (long / 65536) high ∷ place (address + 4) (long % 65536) low ∷ []) self.old self.new }
    {
        self.put_two(n, address, word, opcode::word::high_word(long), high);
        self.put(n + 2, address + 4, opcode::word::low_word(long), low);
    }

    /// The words of a task's value, from place n on; the place after them.
    pub(crate) fn put_value(&mut self, n: usize, address: u32, task: Task) -> usize
        requires { (address < address_limit) × Room (n + data_words task) (placed self.old) }
        ensures { (source : Text) → Taken n (data_places (put_of source address task)) self.old result self.new }
    {
        match task {
            Task::Value(_, value) => {
                let high = opcode::word::high_word(value);
                self.put_two(n, address, high, opcode::word::low_word(value), 0);
                n + 2
            }
            _ => n,
        }
    }

    /// The words of a code, from place n on; the place after them.
    pub(crate) fn put_code(&mut self, n: usize, address: u32, code: Option<Code>) -> usize
        requires { (address < address_limit) × Room (n + length (places_of address code)) (placed self.old) }
        ensures { Taken n (places_of address code) self.old result self.new }
    {
        match code {
            None => n,
            Some(Code::Word(word)) => {
                self.put(n, address, word, 0);
                n + 1
            }
            Some(Code::Value(word, value)) => {
                self.put_two(n, address, word, value, 0);
                n + 2
            }
            Some(Code::Label(word, low)) => {
                self.put_two(n, address, word, low, 1);
                n + 2
            }
        }
    }

    /// The words of a code of the manual's call, from place n on; the place after them. A label's address has marks 2 and 3.
    pub(crate) fn put_manual(&mut self, n: usize, address: u32, code: Option<ManualCode>) -> usize
        requires { (address < address_limit) × Room (n + length (manual_places address code)) (placed self.old) }
        ensures { Taken n (manual_places address code) self.old result self.new }
    {
        match code {
            None => n,
            Some(ManualCode::Word(word)) => {
                self.put(n, address, word, 0);
                n + 1
            }
            Some(ManualCode::Value(word, second)) => {
                self.put_two(n, address, word, second, 0);
                n + 2
            }
            Some(ManualCode::Long(word, long)) => {
                self.put_three(n, address, word, long, 0, 0);
                n + 3
            }
            Some(ManualCode::Address(word, target)) => {
                self.put_three(n, address, word, target, 2, 3);
                n + 3
            }
        }
    }
}
