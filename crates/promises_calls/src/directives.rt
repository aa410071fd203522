//! Which piece of a line is read as a number, and what the line does with it.

ghost use Rattle.promises_calls.specs.Directives.{DirectivesPassOn, NumbersAct, ImmediatesAct};

/// A line's number is the meaning of one piece of it. ORG asks for the second blank-separated piece of its whole trimmed line (`ORG: 5` reads
/// 5), a number. A line that has `DC.`, in letters of either case, anywhere after its first colon, or anywhere at all where it has none, asks
/// for the second piece of its directive, a number or, where it begins with `[`, a sum. The directive is what stands trimmed after the next
/// colon, else what follows a first piece that does not start with DC or DS, where there are two or more (in `X DC.L 5` it is `DC.L 5`, in
/// `FOODC.L 5` it is `5` alone, which has no second piece). A missing piece has no digits; no other line (skipped, END, DS, an instruction,
/// a label alone) has a number.
#[tactic(auto, using(crate::proofs::AskedNumbers::directives_pass_on))]
pub fn directives_pass_on()
    ensures { DirectivesPassOn }
{}

/// What a line does goes by that number: ORG moves the address, to the base plus its number, exactly if its number is read, and data has a
/// value exactly if the directive's number is read, that value; where it is not read, ORG does nothing and data has its room without a value.
#[tactic(auto, using(crate::proofs::AskedNumbers::numbers_act))]
pub fn numbers_act()
    ensures { NumbersAct }
{}

/// An immediate gives its instruction a number exactly if what follows its `#` is read, and then that number, for 8 bits signed, 16 bits and
/// 32 bits; of 32 bits too no digits, a bad digit and a number out of range are told apart.
#[tactic(auto, using(crate::proofs::AskedNumbers::immediates_act))]
pub fn immediates_act()
    ensures { ImmediatesAct }
{}
