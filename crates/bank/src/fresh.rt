// The record before the first entry.
#![tactic(auto, using(ledger::proofs::Promises::pace_is, crate::proofs::Defaults::bus_never, crate::proofs::Defaults::four_never, crate::proofs::Defaults::banks_never), unfolding(crate::proofs::Opened::fresh))]

ghost use Rattle.std.specs.Prelude.{◌≡◌};
ghost use Rattle.bank.specs.Values.{idle_bus, fresh_share, fresh_of};

use crate::{Banks, Bus, Four, Latest, Moves, Once, Record, Share};
use card::{Card, Modes};
use ledger::Ledger;
use pins::Level;

// No entry used it. A function, since other crates call it.
pub fn idle_bus() -> Bus
    ensures { result ≡ idle_bus }
{
    Bus::default()
}

fn fresh_share(modes: Modes) -> Share
    ensures { result ≡ fresh_share modes }
{
    Share {
        modes,
        counter: 0,
        latest: Latest::default(),
        moves: Moves::default(),
        bus: idle_bus(),
        four: Four::default(),
        banks: Banks::default(),
        ledger: Ledger {
            at: 0,
            owed: 8,
            since: 0,
            skipped: 0,
            level: Level::Awake,
        },
    }
}

pub fn fresh_record(card: Card) -> Record
    ensures { result ≡ fresh_of card }
{
    let modes = Modes {
        mr2: card.mr2,
        programmed: card.programmed,
        mr1: card.mr1,
    };
    Record {
        card,
        last: Once::default(),
        pace: ledger::first_pace(card),
        first: fresh_share(modes),
        second: fresh_share(modes),
    }
}
