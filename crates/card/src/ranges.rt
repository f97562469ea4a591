// What each value of the card may be.
ghost use Rattle.std.specs.Prelude.{◌≡◌, ◌≤◌, ◌++◌, ℕ};
ghost use Rattle.rules.specs.Lists as lists;
ghost use Rattle.rules.specs.Ranges as paper;
ghost use Rattle.card.specs.Reading.{good};
ghost use Rattle.card.specs.Values.{card_of, mr1_if, timing};

use crate::registers::{mr1_good, mr2_good};
use crate::{Card, Femtoseconds, Picoseconds};

#[tactic(auto, unfolding(rules::specs::Ranges::period_good, rules::specs::Ranges::within))]
fn period_good(period: Femtoseconds) -> bool
    ensures { result ≡ paper.period_good period.0 }
{
    (938_000..=100_000_000).contains(&period.0)
}

#[tactic(auto, unfolding(rules::specs::Ranges::groups_good, rules::specs::Ranges::within))]
fn groups_good(groups: u64) -> bool
    ensures { result ≡ paper.groups_good groups }
{
    (1..=16_384).contains(&groups)
}

// The upper bound first: no product is taken of what is beyond it.
#[tactic(auto, unfolding(rules::specs::Ranges::trefi_good))]
fn trefi_good(period: Femtoseconds, ps: u64) -> bool
    ensures { result ≡ paper.trefi_good period.0 ps }
{
    ps <= 20_000_000 && period.0 <= Picoseconds(ps).femtoseconds().0
}

// A duration of a timing, or what is added to one.
#[tactic(auto, unfolding(rules::specs::Ranges::raise_good))]
fn duration_good(ps: u64) -> bool
    ensures { result ≡ paper.raise_good ps }
{
    ps <= 1_000_000
}

// The value of this tag, behind what was read of the card: a number, tag 1's in femtoseconds, or the duration of a timing. A gap comes in no card that sleeps.
#[tactic(auto, using(crate::proofs::Numbers::mr2_byte), unfolding(crate::specs::Reading::good, rules::specs::Ranges::start_good, rules::specs::Ranges::timing_good, rules::specs::Ranges::raise_good))]
pub fn value_good(card: Card, tag: u8, x: u64) -> bool
    ensures { (floor : ℕ) → floor ≤ 255 → result ≡ good card.sleeps card.period.0 tag x (timing x floor) }
{
    match tag {
        1 => period_good(Femtoseconds(x)),
        2 => u8::try_from(x).is_ok_and(|mr2| mr2_good(card.period, mr2)),
        3 => groups_good(x),
        4 => trefi_good(card.period, x),
        23 => u8::try_from(x).is_ok_and(mr1_good),
        25 => x <= 255 && !card.sleeps,
        // The raise, or a timing: its floor is one byte, and any will do.
        _ => duration_good(x),
    }
}

fn timings_good(card: Card) -> bool
    ensures { result ≡ lists.all paper.timing_good (paper.timings (card_of card) ++ paper.sleep_timings (card_of card)) }
{
    card.durations
        .iter()
        .all(|&ps| duration_good(u64::from(ps)))
}

// A starting MR1, if there is one: the flag and its byte, as `Card` has them.
#[tactic(auto, unfolding(rules::specs::Ranges::mr1_start, rules::specs::Ranges::start_good, crate::specs::Values::mr1_if))]
fn start_good(programmed: bool, mr1: u8) -> bool
    ensures { result ≡ paper.mr1_start (mr1_if programmed mr1) }
{
    !programmed || mr1_good(mr1)
}

#[tactic(auto, unfolding(rules::specs::Ranges::card_good, crate::specs::Values::card_of))]
pub fn in_range(card: Card) -> bool
    ensures { result ≡ paper.card_good (card_of card) }
{
    period_good(card.period)
        && mr2_good(card.period, card.mr2)
        && groups_good(u64::from(card.groups))
        && trefi_good(card.period, u64::from(card.trefi))
        && timings_good(card)
        && !(card.sleeps && card.paired)
        && duration_good(u64::from(card.raise))
        && start_good(card.programmed, card.mr1)
}
