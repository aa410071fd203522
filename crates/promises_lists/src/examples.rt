//! The rules' own examples.

ghost use Rattle.promises.specs.Examples.{ExamplesHold};

/// Each of the eleven examples that the rules give, a source at a base, is accepted with exactly the list that they print for it: the
/// bezel script at base 0 and at base $2000, the empty source, and eight short ones, as `DC.B 5`, which gives two words and advances 1.
#[tactic(auto, using(promises::proofs::Examples::examples_hold))]
pub fn examples_hold()
    ensures { ExamplesHold }
{}
