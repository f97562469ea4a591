// The first of the rules that is broken, and the first cycle at which none is.
ghost use Rattle.std.specs.Prelude.{◌≡◌};
ghost use Rattle.rules.specs.Folds as rules;
ghost use Rattle.rules.specs.Checks.{named};
ghost use Rattle.rules.specs.Delays.{delay_rules};
ghost use Rattle.card.specs.Values.{clocks_of};
ghost use Rattle.pins.specs.Values.{command_of, moved_of};
ghost use Rattle.bounds.specs.Values.{refusal_of, look_with};
ghost use Rattle.bounds.specs.Parts.{broken_from, greatest_of};

use crate::Broken;
use crate::offer::Offer;
use bank::{Bus, Share};
use card::Delays;
use pins::{Command, Move};

// The rules, as their bounds stand in the table (`bounds_of`).
const RULES: [u8; 25] = [
    1, 2, 3, 4, 5, 6, 7, 8, 9, 10, 11, 12, 13, 14, 15, 16, 17, 18, 21, 22, 23, 24, 25, 26, 27,
];

#[tactic(auto, using(crate::proofs::Folded::by_place), unfolding(crate::specs::Values::refusal_of, rules::specs::Checks::named))]
fn broken(bounds: [u64; 25], stamp: u32) -> Option<Broken>
    ensures { refusal_of result ≡ named 10 (broken_from 0 bounds stamp) }
{
    for (rule, cycle) in RULES.iter().zip(&bounds) {
        if u64::from(stamp) < *cycle {
            return Some(Broken {
                rule: *rule,
                cycle: *cycle,
            });
        }
    }
    None
}

#[tactic(auto, using(crate::proofs::Folded::greatest_reduced))]
fn greatest(bounds: [u64; 25]) -> u64
    ensures { result ≡ greatest_of bounds }
{
    bounds.iter().copied().max().unwrap_or(0)
}

// 10, of an entry that is judged as the command and moves so, the other part's bus being `theirs`: the lowest rule whose first permitted cycle is past the
// stamp, with that cycle.
#[tactic(auto, using(crate::proofs::Ruled::broken_is))]
pub fn first_broken(
    share: Share,
    theirs: Bus,
    delays: Delays,
    command: Command,
    moved: Move,
    stamp: u32,
) -> Option<Broken>
    ensures { refusal_of result ≡ named 10 (rules.first_broken (look_with share theirs) (delay_rules (clocks_of delays) (command_of command) (moved_of moved) share.counter) stamp) }
{
    let offer = Offer {
        share: &share,
        delays: &delays,
        command,
        moved,
    };
    broken(offer.bounds(&theirs), stamp)
}

// The first cycle at which the rules let such an entry come.
#[tactic(auto, using(crate::proofs::Ruled::greatest_is))]
pub fn first_cycle(share: Share, theirs: Bus, delays: Delays, command: Command, moved: Move) -> u64
    ensures { result ≡ rules.greatest (look_with share theirs) (delay_rules (clocks_of delays) (command_of command) (moved_of moved) share.counter) }
{
    let offer = Offer {
        share: &share,
        delays: &delays,
        command,
        moved,
    };
    greatest(offer.bounds(&theirs))
}
