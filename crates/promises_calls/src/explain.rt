#![tactic(auto)]

//! What is promised of the verdicts on lines: whether a line has a word in the list, and why not.
ghost use Rattle.promises.specs.Explain.{ExplainsExactly, ExplainRefusesExactly, ExplainsAll, ExplainsAtEveryBase, WordsFitForms};
ghost use Rattle.promises.specs.ExplainCases.{CasesHold};

/// Whatever mnemonics are in use: a verdict on a line is given exactly if the first pass accepts the source, the line is there, no
/// earlier one is the END line, and the verdict is right. "Emitted" is right if the second pass puts words for the line, from its address
/// on, where the list without it has none. A reason is right if it puts none, and of these seven it is the first that holds of the line,
/// its address and the recorded labels: not an instruction; a mnemonic not in use; a wrong number of operands; operands of kinds that no
/// form of the mnemonic has; a number, with what failed in it; a label not recorded; a displacement outside −128 to 127.
#[tactic(auto, using(promises::proofs::Explain::explains_exactly))]
pub fn explains_exactly()
    ensures { ExplainsExactly }
{}

/// Whatever mnemonics are in use, the call refuses exactly by the first condition that holds, with that condition's place: 1 to 6 as in
/// assembling, and after them 13 with the line as place, which holds of line 0, of a line past the last and of one after an END line.
#[tactic(auto, using(promises::proofs::Explain::explain_refuses_exactly))]
pub fn explain_refuses_exactly()
    ensures { ExplainRefusesExactly }
{}

/// Whatever mnemonics are in use, the verdicts on all lines are refused exactly by 1 to 6, as in assembling. Else they are, in order, the
/// verdicts that the call for one line gives of line 1, of line 2 and so on, as far as it gives any.
#[tactic(auto, using(promises::proofs::Explain::explains_all))]
pub fn explains_all()
    ensures { ExplainsAll }
{}

/// Whatever mnemonics are in use, a source that passes refusals 1 to 6 at some base has the verdicts there that it has at base 0.
#[tactic(auto, using(promises::proofs::ExplainMoves::explains_at_every_base))]
pub fn explains_at_every_base()
    ensures { ExplainsAtEveryBase }
{}

/// Operands make words only if they are those of one of the operation's forms: as many as it takes, and in each place of the form one of
/// that place's kind or, where other text may stand, a recorded label, whatever kind its name looks like.
#[tactic(auto, using(promises::proofs::Forms::words_fit_forms))]
pub fn words_fit_forms()
    ensures { WordsFitForms }
{}

/// Odd lines have, at base 0, the verdicts or refusals that stand beside them: `move.q D0,D1` has a word, of `BRA D0` the kind is blamed
/// where the label D0 is too far, of `BRA +200` the number; the END line has a verdict, and what follows it is refused.
#[tactic(auto, using(promises::proofs::ExplainCases::cases_hold))]
pub fn cases_hold()
    ensures { CasesHold }
{}
