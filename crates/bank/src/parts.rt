// The parts of a record.
ghost use Rattle.std.specs.Prelude.{◌≡◌, eqb};
ghost use Rattle.rules.specs.Whose.{part_of};
ghost use Rattle.pins.specs.Values.{whose_of};
ghost use Rattle.bank.specs.Values.{share_at, theirs_of};

use crate::fresh::idle_bus;
use crate::{Bus, Record, Share};
use pins::Whose;

// What is of both parts the first one judges.
#[tactic(auto, unfolding(rules::specs::Whose::part_of, pins::specs::Values::whose_of))]
fn by_second(whose: Whose) -> bool
    ensures { result ≡ eqb (part_of (whose_of whose)) 1 }
{
    matches!(whose, Whose::Second)
}

// The share of the part that judges the entry.
#[tactic(auto, using(crate::proofs::Shares::own_first, crate::proofs::Shares::own_second))]
pub fn own(rec: Record, whose: Whose) -> Share
    ensures { result ≡ share_at rec (part_of (whose_of whose)) }
{
    if by_second(whose) {
        rec.second
    } else {
        rec.first
    }
}

// The other part's bus: all that it is asked. There is none in a record of one part.
#[tactic(auto, using(crate::proofs::Shares::theirs_none, crate::proofs::Shares::theirs_first, crate::proofs::Shares::theirs_second))]
pub fn theirs(rec: Record, whose: Whose) -> Bus
    ensures { result ≡ theirs_of rec (part_of (whose_of whose)) }
{
    if !rec.card.paired {
        idle_bus()
    } else if by_second(whose) {
        rec.first.bus
    } else {
        rec.second.bus
    }
}
