//! The labels as text, as `symlist` prints them.
ghost use Rattle.promises_texts.specs.Labels.{SymbolsReadBack};
ghost use Rattle.promises_texts.specs.Examples.{LabelExamples};

/// What is printed of an accepted source has one row for each label, in the list's order, and nothing else; and each row is read back, from its
/// end, as that label: decimal digits back to a space are its line, the eight hexadecimal digits before it and a space its address, the rest,
/// before a space, its name. No text is read back in two ways, so a reader tells every name, `A 00000001 2` too; a refusal is read as no list.
#[tactic(auto, using(crate::proofs::ReadBack::symbols_read_back))]
pub fn symbols_read_back()
    ensures { SymbolsReadBack }
{}

/// What `symlist` prints for some scripts, byte for byte: names with blanks, the empty name, one that looks like a row, a label set again.
#[tactic(auto, using(crate::proofs::LabelTexts::label_examples))]
pub fn label_examples()
    ensures { LabelExamples }
{}
