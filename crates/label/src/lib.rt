#![tactic(auto)]

//! The labels of a source: a table of rows (start, length, address, row before) into it, written and searched.
//! A name is sought only among the rows of its hash: from the hash's head, at the cells' front, to the last of these
//! rows, and from each row to the one before. Rows count from 1 there; 0 is none. Cells whose heads are 0 hold no labels.
ghost use Rattle.std.specs.Prelude.{◌≡◌, ◌≤◌, ◌<◌, ◌+◌, ◌-◌, ◌/◌, true, false, [], length, take, get_or, replicate, IfOk, IfErr, ℕ};
ghost use Rattle.rules.specs.Limits.{max_source, max_labels};
ghost use Rattle.rules.specs.Label.{Label, find, recorded, has_room};
ghost use Rattle.text.specs.Breaks.{line_number};
ghost use Rattle.label.specs.Table.{Held, hashes, hash_of, cell_of, table_of, row_of};
ghost use Rattle.label.specs.Record.{with_row, with_head, span_label, span_name, cells_with};
ghost use Rattle.label.specs.Numbers.{numbers_of, row_in};

use std::marker::Model;

// The hashes that a name can have.
const HEADS: usize = 128;

/// The cells of a table: one for each hash, and four for each label.
pub const TABLE: usize = HEADS + 4 * rules::MAX_LABELS;

/// The labels of a small table.
pub const SMALL_LABELS: usize = 64;

/// Its cells.
pub const SMALL: usize = HEADS + 4 * SMALL_LABELS;

/// A new label, and as many recorded as there may be.
#[derive(Clone, Copy, Debug, PartialEq, Eq, Hash)]
pub struct Full;

/// A row's numbers: where the label's name starts in the source, how many bytes it has, and the label's address.
#[derive(Clone, Copy, Debug, PartialEq, Eq, Hash)]
pub struct Row {
    pub start: usize,
    pub length: usize,
    pub address: u32,
}

/// The labels of a source, in cells that are lent: in the order of their first record, each with its last address.
// No `==`: it holds a `&mut`.
#[derive(Drop)]
pub struct Labels<'a> {
    source: &'a [u8],
    cells: &'a mut [u32],
    count: usize,
}

impl<'a> Model for Labels<'a> {
    ghost use Rattle.label.specs.Labelled.{Labelled, labelled, IsHeld};

    ghost Value = { Labelled };

    ghost view = { labelled };

    ghost invariant = { IsHeld };
}

// The hash of a name.
fn hash_of(name: &[u8]) -> usize
    ensures { result ≡ hash_of name.now }
{
    let mut hash = 0;
    for &byte in name {
        hash = (53 * hash + usize::from(byte)) % HEADS;
    }
    hash
}

impl<'a> Labels<'a> {
    /// No labels yet, in cells whose heads are 0.
    pub fn new(source: &'a [u8], cells: &'a mut [u32]) -> Self
        requires { take hashes cells.old ≡ replicate hashes 0 }
        ensures source { result.source ≡ source.now }
        ensures table { result.table ≡ [] }
        ensures cells { result.cells ≡ cells.old }
        ensures room { result.room ≡ (length cells.old - hashes) / 4 }
    {
        Labels {
            source,
            cells,
            count: 0,
        }
    }

    /// How many labels there are. Their names lie in the source and differ, and each one's line is that of its start.
    pub fn len(&self) -> usize
        ensures count { result ≡ length self.now.table }
        ensures rows { table_of self.now.source self.now.cells result ≡ self.now.table }
        ensures held { Held self.now.source self.now.cells result }
        ensures lines { (k : ℕ) (d : Label) → k < length self.now.table → (get_or self.now.table k d).line ≡ line_number self.now.source (get_or self.now.table k d).start }
    {
        self.count
    }

    /// The source that they stand in.
    pub fn source(&self) -> &'a [u8]
        ensures { result.now ≡ self.now.source }
    {
        self.source
    }

    /// The cells, with what they hold of the labels: whoever lent them may read them, or lend them again.
    pub fn into_cells(self) -> &'a mut [u32]
        ensures { result.now ≡ self.entry.cells }
    {
        self.cells
    }

    // The row of the label `name`, whose hash is `hash`.
    fn row_hashed(&self, name: &[u8], hash: usize) -> Option<usize>
        requires { hash ≡ hash_of name.now }
        ensures { result ≡ row_of name.now self.now.table }
    {
        let mut link = hash;
        // A chain of rows, which no index counts.
        'names: while self.cells[link] != 0 {
            // No `From` makes a usize of a u32.
            let k = (self.cells[link] - 1) as usize;
            link = HEADS + 4 * k + 3;
            let row = read_row(self.cells, k);
            if row.length != name.len() {
                continue 'names;
            }
            // One index into both texts.
            for i in 0..name.len() {
                if self.source[row.start + i] != name[i] {
                    continue 'names;
                }
            }
            return Some(k);
        }
        None
    }

    /// The row of the label `name`, from 0; None where no label has that name. With no labels at all the name's hash is not made.
    pub fn find_row(&self, name: &[u8]) -> Option<usize>
        ensures { result ≡ row_of name.now self.now.table }
    {
        if self.count == 0 {
            return None;
        }
        let hash = hash_of(name);
        self.row_hashed(name, hash)
    }

    /// The address of the label `name`; None where no label has that name.
    pub fn find(&self, name: &[u8]) -> Option<u32>
        ensures { result ≡ find name.now self.now.table }
    {
        let row = self.find_row(name)?;
        Some(read_row(self.cells, row).address)
    }

    /// The numbers of the label in row k.
    pub fn row(&self, k: usize) -> Row
        requires { k < length self.now.table }
        ensures { (d : Label) → result ≡ numbers_of (get_or self.now.table k d) }
    {
        read_row(self.cells, k)
    }

    /// Records the label that stands from `start` to before `end` in the source: again in its row, or in a new one. `Full`, with
    /// nothing recorded, where the name is new and as many labels are recorded as there may be.
    // As a call it takes 15 in 1,000 of a script of labels.
    #[inline]
    pub fn record(&mut self, start: usize, end: usize, address: u32) -> Result<(), Full>
        requires ordered { start ≤ end }
        requires within { end ≤ length self.old.source }
        requires short { length self.old.source ≤ max_source }
        requires room { length self.old.table < max_labels → length self.old.table < self.old.room }
        ensures source { self.new.source ≡ self.old.source }
        ensures room { self.new.room ≡ self.old.room }
        ensures recorded { IfOk result (λ _. self.new.table ≡ recorded (span_label self.old.source start end address) self.old.table) }
        ensures room_for { IfOk result (λ _. has_room (find (span_name self.old.source start end) self.old.table) self.old.table ≡ true) }
        ensures written { IfOk result (λ _. self.new.cells ≡ cells_with self.old.source self.old.table self.old.cells start end address) }
        ensures kept { IfErr result (λ _. self.new ≡ self.old) }
        ensures full { IfErr result (λ _. has_room (find (span_name self.old.source start end) self.old.table) self.old.table ≡ false) }
    {
        let name = &self.source[start..end];
        let hash = hash_of(name);
        match self.row_hashed(name, hash) {
            // The numbers are below 2^32, as the source is short.
            Some(row) => {
                write_row(self.cells, row, start as u32, (end - start) as u32, address);
                Ok(())
            }
            None => {
                let row = self.count;
                if rules::MAX_LABELS <= row {
                    return Err(Full);
                }
                write_row(self.cells, row, start as u32, (end - start) as u32, address);
                link_row(self.cells, row, hash);
                self.count = row + 1;
                Ok(())
            }
        }
    }
}

// Row k, read.
fn read_row(cells: &[u32], k: usize) -> Row
    requires { cell_of k + 2 < length cells.now }
    ensures { result ≡ row_in cells.now k }
{
    let cell = HEADS + 4 * k;
    // No `From` makes a usize of a u32.
    Row {
        start: cells[cell] as usize,
        length: cells[cell + 1] as usize,
        address: cells[cell + 2],
    }
}

// Row k, written.
fn write_row(cells: &mut [u32], k: usize, start: u32, len: u32, address: u32)
    requires { cell_of k + 2 < length cells.old }
    ensures { cells.new ≡ with_row cells.old k start len address }
{
    let cell = HEADS + 4 * k;
    cells[cell] = start;
    cells[cell + 1] = len;
    cells[cell + 2] = address;
}

// Row k, put in front of the rows of its hash.
fn link_row(cells: &mut [u32], k: usize, hash: usize)
    requires link { cell_of k + 3 < length cells.old }
    requires head { hash < hashes }
    requires few { k < max_labels }
    ensures { cells.new ≡ with_head cells.old k hash }
{
    let before = cells[hash];
    cells[HEADS + 4 * k + 3] = before;
    // At most as many as there may be labels.
    cells[hash] = (k + 1) as u32;
}
