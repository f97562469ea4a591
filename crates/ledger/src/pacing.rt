// When refreshes are due: the card's own pace, and another one from a temperature on.
ghost use Rattle.std.specs.Prelude.{◌≡◌};
ghost use Rattle.std.proofs.Math.Option.{some};
ghost use Rattle.rules.specs.Lent.{start_pace, pace_by};
ghost use Rattle.rules.specs.Lent as lent;
ghost use Rattle.card.specs.Values.{card_of};
ghost use Rattle.ledger.specs.Values.{pace_of};
ghost use Rattle.ledger.specs.Parts.{beat_as};

use crate::Pace;
use crate::beat::Beat;
use card::Card;

// The dues of a card at a pace.
pub fn beat_of(pace: Pace, card: Card) -> Beat
    ensures { beat_as result ≡ lent.beat_of (card_of card) (pace_of pace) }
{
    Beat {
        next: pace.next,
        span: card::interval_at(card, pace.mr4),
    }
}

// Before the first temperature: MR4 as if it had been read back with tREFI taken once.
#[tactic(auto, unfolding(crate::specs::Values::pace_of, rules::specs::Lent::start_pace, rules::specs::Heat::start_mr4))]
pub fn first_pace(card: Card) -> Pace
    ensures { pace_of result ≡ start_pace (card_of card) }
{
    Pace {
        next: card::interval_at(card, 0b011),
        mr4: 0b011,
    }
}

// After a temperature at number n. What is due there falls by the old interval; then comes the earlier of the old next due and one new interval after n.
pub fn respaced(pace: Pace, card: Card, n: u32, mr4: u8) -> Pace
    ensures { pace_of result ≡ pace_by (card_of card) n (some mr4) (pace_of pace) }
{
    let old = beat_of(pace, card).next_after(n);
    let new = u64::from(n) + card::interval_at(card, mr4);
    Pace {
        next: old.min(new),
        mr4,
    }
}
