#![tactic(auto)]

//! Moves made one after another: each gets the slices as the move before left them.
ghost use Rattle.std.specs.Prelude.{◌≡◌, ◌≤◌, ℕ, length, take, drop, map};
ghost use Rattle.rules.specs.Answer.{Answer};
ghost use Rattle.rules.specs.Assemble.{slices};
ghost use Rattle.rules.specs.Tally.{moves};
ghost use Rattle.answer.specs.Refusal.{answer_of};
ghost use Rattle.moves.specs.Moves.{answer_from, told, slices_after, IsTally, IsPairsTally};

use answer::Refusal;

/// What stands for a move's answer in an array: the answer itself, or its number and its place.
pub trait AnswerSign: Copy {
    ghost answer: { Self → Answer ℕ };

    /// The sign of an answer.
    fn from_answer(moved: Result<usize, Refusal>) -> Self
        ensures { answer result ≡ answer_of moved };
}

impl AnswerSign for Result<usize, Refusal> {
    ghost answer = { answer_of };

    fn from_answer(moved: Result<usize, Refusal>) -> Result<usize, Refusal> {
        moved
    }
}

/// As C gets them: 0 and the count, or a refusal's number and place.
impl AnswerSign for (u8, usize) {
    ghost answer = { λ r. answer_from r.0 r.1 };

    #[tactic(auto, using(crate::proofs::Told::refused_from))]
    fn from_answer(moved: Result<usize, Refusal>) -> (u8, usize) {
        match moved {
            Ok(count) => (0, count),
            Err(refusal) => (refusal.number(), refusal.place()),
        }
    }
}

/// Makes the moves of `distances`, refused ones included; each answer, or its number and place, goes into `answers`, at its
/// distance's index.
// The slices and `count` side by side, as C lends them.
pub fn relocate_all<A: AnswerSign>(
    addresses: &mut [u32],
    words: &mut [u16],
    marks: &[u8],
    count: usize,
    distances: &[i32],
    answers: &mut [A],
)
    requires { length distances.now ≤ length answers.old }
    ensures slices { slices addresses.new words.new marks.now ≡ slices_after count (slices addresses.old words.old marks.now) distances.now }
    ensures answers { map A.answer (take (length distances.now) answers.new) ≡ told (moves count (slices addresses.old words.old marks.now) distances.now) }
    ensures others { drop (length distances.now) answers.new ≡ drop (length distances.now) answers.old }
    ensures follows { IsTally (slices addresses.old words.old marks.now) count distances.now (slices addresses.new words.new marks.now) (map A.answer (take (length distances.now) answers.new)) }
    ensures pairs { IsPairsTally (slices addresses.old words.old marks.now) count distances.now (slices addresses.new words.new marks.now) (map A.answer (take (length distances.now) answers.new)) }
{
    // By index: of a `zip` with `iter_mut` nothing is known after the loop.
    for i in 0..distances.len() {
        let moved = relocate::relocate(addresses, words, marks, count, distances[i]);
        answers[i] = A::from_answer(moved);
    }
}
