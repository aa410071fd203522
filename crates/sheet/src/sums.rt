//! Totals added up, of the labels the larger; and looked at: whether one of the twelve is too high, and how many sources they are of.
ghost use Rattle.std.specs.Prelude.{◌≡◌, suc, ◌+◌, ◌*◌, ◌≤◌, min, nat_lt};
ghost use Rattle.std.specs.Bool.{OnFalse};
ghost use Rattle.std.specs.List.{list_any};
ghost use Rattle.requests.specs.Sheet.{max_sources, max_total, numbers_in, plus, sources, any_over};
ghost use Rattle.sheet.specs.Totals.{said, weight, SumFits};

use crate::{MAX_SOURCES, MAX_TOTAL, Totals};

/// Both totals, added up.
#[tactic(auto, unfolding(requests::specs::Sheet::plus))]
pub fn sum(t: Totals, u: Totals) -> Totals
    requires { SumFits t u }
    ensures { said result ≡ plus (said t) (said u) }
{
    Totals {
        skipped: t.skipped + u.skipped,
        org: t.org + u.org,
        label: t.label + u.label,
        defined: t.defined + u.defined,
        worded: t.worded + u.worded,
        wordless: t.wordless + u.wordless,
        ended: t.ended + u.ended,
        words: t.words + u.words,
        marked: t.marked + u.marked,
        labels: t.labels.max(u.labels),
        accepted: t.accepted + u.accepted,
        refused: t.refused + u.refused,
    }
}

// Whether one of some numbers is too high for a total.
fn has_high(numbers: &[u64]) -> bool
    ensures { result ≡ list_any (λ n. nat_lt max_total n) numbers.now }
{
    numbers.iter().any(|&n| MAX_TOTAL < n)
}

/// Whether one of the twelve is above 2^33.
#[tactic(auto, using(crate::proofs::Adding::over_is))]
pub fn is_over(t: Totals) -> bool
    ensures over { result ≡ any_over (numbers_in (said t)) }
    ensures low { OnFalse result (weight (said t) ≤ 12 * max_total) }
{
    has_high(&<[u64; 12]>::from(t))
}

/// How many sources the totals are of; from 1,000,001 on it is that.
#[tactic(auto, unfolding(requests::specs::Sheet::sources))]
pub fn count_sources(t: Totals) -> u64
    ensures { result ≡ min (sources (said t)) (suc max_sources) }
{
    t.accepted.saturating_add(t.refused).min(MAX_SOURCES + 1)
}
