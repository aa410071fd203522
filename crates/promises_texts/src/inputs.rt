//! Inputs that are read chunk by chunk.
ghost use Rattle.station.specs.Reads.{ReadsOn};
ghost use Rattle.promises_texts.specs.Inputs.{ChunksAreRead, ScriptFrontIsEnough, ListFrontIsEnough, TableFrontIsEnough};

/// Before the first read a reader has read nothing; after each further chunk it has read what it had and the chunk, and its buffer keeps as
/// much of the front of all that as there is room for.
#[tactic(auto, using(station::proofs::Kept::reads_on))]
pub fn reads_on()
    ensures { ReadsOn }
{}

/// Whatever the chunks in which a text of less than 2^64 bytes is read: the reader has counted its bytes, and the buffer keeps as much of its
/// front as there is room for. So the chunks `NO`, `P` and the chunk `NOP` leave the same front.
#[tactic(auto, using(crate::proofs::Fronts::chunks_are_read))]
pub fn chunks_are_read()
    ensures { ChunksAreRead }
{}

/// What a program prints for a script by its count of bytes and the first 32,768 of them is what it prints for the whole script, and nothing
/// where a read failed: so the list, by the rules and by the manual, the nearest label, the labels, the verdicts, the tidy copy and its
/// refusal, and any text that refuses a longer script by its length alone.
#[tactic(auto, using(crate::proofs::Fronts::script_front_is_enough))]
pub fn script_front_is_enough()
    ensures { ScriptFrontIsEnough }
{}

/// What `movelist` prints for a text by the first 196,609 bytes of it is what it prints for the whole text, and nothing where a read failed.
#[tactic(auto, using(crate::proofs::Fronts::moved_front_is_enough))]
pub fn list_front_is_enough()
    ensures { ListFrontIsEnough }
{}

/// What `asmlist` and `whyline` print by the first 97 bytes of a branch table and the first 32,768 of a script is what they print for the
/// whole table and the whole script, and nothing where a read of one of them failed; and where no table is lent it is as without one.
#[tactic(auto, using(crate::proofs::Fronts::table_front_is_enough))]
pub fn table_front_is_enough()
    ensures { TableFrontIsEnough }
{}
