//! The twelve totals as numbers in one array, in the order of the struct: so C lends them.
ghost use Rattle.std.specs.Prelude.{◌≡◌};
ghost use Rattle.requests.specs.Sheet.{numbers_in};
ghost use Rattle.sheet.specs.Totals.{said, lent_totals};

use crate::Totals;

impl From<[u64; 12]> for Totals {
    ghost from_gives = { λ numbers t. said t ≡ lent_totals numbers };

    fn from(numbers: [u64; 12]) -> Totals {
        let [
            skipped,
            org,
            label,
            defined,
            worded,
            wordless,
            ended,
            words,
            marked,
            labels,
            accepted,
            refused,
        ] = numbers;
        Totals {
            skipped,
            org,
            label,
            defined,
            worded,
            wordless,
            ended,
            words,
            marked,
            labels,
            accepted,
            refused,
        }
    }
}

impl From<Totals> for [u64; 12] {
    ghost from_gives = { λ t numbers. numbers ≡ numbers_in (said t) };

    #[tactic(auto, unfolding(requests::specs::Sheet::numbers_in))]
    fn from(t: Totals) -> [u64; 12] {
        [
            t.skipped, t.org, t.label, t.defined, t.worded, t.wordless, t.ended, t.words, t.marked,
            t.labels, t.accepted, t.refused,
        ]
    }
}
