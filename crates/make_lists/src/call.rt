//! The calls that assemble a script.
ghost use Rattle.std.specs.Prelude.{◌≡◌, ◌<◌, List, length};
ghost use Rattle.rules.specs.Text.{Text};
ghost use Rattle.rules.specs.Answer.{Answer, refused, and_then};
ghost use Rattle.rules.specs.Assemble.{Place, slices, room, write_list, assemble};
ghost use Rattle.requests.specs.Branches.{assemble_under};
ghost use Rattle.requests.specs.ManualAssemble.{assemble_manual};
ghost use Rattle.answer.specs.Refusal.{number_of, place_of, answer_of};

use answer::Refusal;
use branches::load_branches;

/// A call that assembles a script.
pub trait Call {
    // The list of a script, or why there is none.
    ghost list: { Self → Text → Answer (List Place) };

    /// Puts the list in the first places of three slices, and answers its count.
    fn assemble(
        &self,
        source: &[u8],
        addresses: &mut [u32],
        words: &mut [u16],
        marks: &mut [u8],
    ) -> Result<usize, Refusal>
        ensures answer { answer_of result ≡ and_then (list self.now source.now) (room (slices addresses.old words.old marks.old)) }
        ensures slices { slices addresses.new words.new marks.new ≡ write_list (list self.now source.now) (slices addresses.old words.old marks.old) };

    /// Why there is no list of a script over the limit, of which only the length is known.
    fn refuse_long(&self, total: usize) -> Refusal
        ensures { (s : Text) → total ≡ length s → 32768 < length s → list self.now s ≡ refused (number_of result) (place_of result) };
}

/// The list at a base.
#[derive(Clone, Copy)]
pub struct Plain {
    pub base: u32,
}

impl Call for Plain {
    ghost list = { λ call s. assemble call.base s };

    #[tactic(auto, unfolding(rules::specs::Assemble::assemble_answer, rules::specs::Assemble::assemble_slices))]
    fn assemble(
        &self,
        source: &[u8],
        addresses: &mut [u32],
        words: &mut [u16],
        marks: &mut [u8],
    ) -> Result<usize, Refusal> {
        assemble::assemble(source, self.base, addresses, words, marks)
    }

    #[tactic(auto, using(crate::proofs::Few::plain_long))]
    fn refuse_long(&self, total: usize) -> Refusal {
        Refusal::LongSource(total)
    }
}

/// The list at a base under a branch table, which is refused before all else.
#[derive(Clone, Copy)]
pub struct Under<'a> {
    pub names: &'a [u8],
    pub base: u32,
}

impl<'a> Call for Under<'a> {
    ghost list = { λ call s. assemble_under call.names.now call.base s };

    #[tactic(auto, unfolding(requests::specs::Branches::assemble_under_answer, requests::specs::Branches::assemble_under_slices))]
    fn assemble(
        &self,
        source: &[u8],
        addresses: &mut [u32],
        words: &mut [u16],
        marks: &mut [u8],
    ) -> Result<usize, Refusal> {
        assemble::assemble_branches(self.names, source, self.base, addresses, words, marks)
    }

    fn refuse_long(&self, total: usize) -> Refusal {
        match load_branches(self.names) {
            Ok(_) => Refusal::LongSource(total),
            Err(refusal) => refusal,
        }
    }
}

/// The list at a base by the manual's own words.
#[derive(Clone, Copy)]
pub struct Manual {
    pub base: u32,
}

impl Call for Manual {
    ghost list = { λ call s. assemble_manual call.base s };

    #[tactic(auto, unfolding(requests::specs::ManualAssemble::manual_answer, requests::specs::ManualAssemble::manual_slices))]
    fn assemble(
        &self,
        source: &[u8],
        addresses: &mut [u32],
        words: &mut [u16],
        marks: &mut [u8],
    ) -> Result<usize, Refusal> {
        assemble::assemble_manual(source, self.base, addresses, words, marks)
    }

    #[tactic(auto, using(crate::proofs::Few::manual_long))]
    fn refuse_long(&self, total: usize) -> Refusal {
        Refusal::LongSource(total)
    }
}
