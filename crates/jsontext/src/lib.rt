#![tactic(auto)]

//! What `--json` prints: one value a call, on one line. Numbers are decimal and whole, and the members of an object come in the
//! order of their names' bytes. A refused call prints nothing.
//!
//! | member | of | what | example |
//! |---|---|---|---|
//! | `list` | assemble | the words, in the order of the list | `[{"address":4096,"mark":0,"word":20081}]` |
//! | `address` | a word, a label | its address | `4096` |
//! | `mark` | a word | how a move changes it: 0 not, 1 as a label's address, 2 and 3 as the two words of one number | `1` |
//! | `word` | a word | the word | `20081` |
//! | `labels` | symbols | the labels, in the order of their lines | `[{"address":4096,"line":2,"name":"LIM"}]` |
//! | `line` | a label, a verdict | the number of a line, from 1 | `2` |
//! | `name` | a label, nearest | a label's name, as it stands where its address was last set | `"LIM"` |
//! | `distance` | nearest | by how much the address is above the label's | `3` |
//! | `files` | why | the scripts, in the order in which they are named | `[{"file":"x.s","lines":[..]}]` |
//! | `file` | a script | its name | `"x.s"` |
//! | `lines` | a script | the verdicts on its lines, or on the one that is asked for | `[{"line":1,"verdict":"word emitted"}]` |
//! | `verdict` | a line | why it has no word, in the words of the text | `"unknown mnemonic"` |
//! | `runs` | run | the runs, one for each value of a threshold | `[{"data_registers":[..],..}]` |
//! | `data_registers` | a run | D0 to D7 at its end | `[7,0,0,0,0,0,0,0]` |
//! | `end` | a run | why it ended: halt, word, access or limit | `"halt"` |
//! | `flags` | a run | the five flags at its end | `{"carry":false,..}` |
//! | `carry`, `extend`, `negative`, `overflow`, `zero` | flags | one of them | `true` |
//! | `program_counter` | a run | the address at which it ended | `4098` |
//! | `steps` | a run | the steps made | `9` |
//! | `value` | a run | the value of the threshold that is tried; there is none without one | `12` |
//! | `accepted`, `refused` | sheet | scripts | `7` |
//! | `skipped`, `org`, `label`, `data`, `word`, `wordless`, `end` | sheet | lines by their class, as in the sheet's text | `120` |
//! | `words`, `marked`, `labels` | sheet | words; those with mark 1; the most labels in one script | `640` |
pub mod labels; // labels.rt: labels with their lines, and the nearest one
pub mod places; // places.rt: a list of words
pub mod runs; // runs.rt: runs of the bench, one after another
pub mod totals; // totals.rt: a sheet
pub mod verdicts; // verdicts.rt: why lines have no word

ghost use Rattle.std.specs.Prelude.{IfOk};
ghost use Rattle.serde_json.specs.View.{view};
ghost use Rattle.jsontext.specs.Line.{IsLine, IsPlain};

use serde_json::Value;
use std::alloc::{AllocError, Global};

// The text of a value, and byte 10.
fn line(alloc: Global, value: &Value) -> Result<Vec<u8>, AllocError>
    ensures { IsPlain (view value.now) → IfOk result (λ t. IsLine (view value.now) t.items) }
{
    let mut text = value.to_string(alloc)?.into_bytes();
    text.push(b'\n')?;
    Ok(text)
}
