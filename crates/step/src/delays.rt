// The delay rules: 10.
ghost use Rattle.std.specs.Prelude.{◌≡◌};
ghost use Rattle.rules.specs.Checks.{named};
ghost use Rattle.rules.specs.Folds.{first_broken};
ghost use Rattle.rules.specs.Delays.{delay_rules};
ghost use Rattle.card.specs.Values.{clocks_of};
ghost use Rattle.pins.specs.Values.{command_of, moved_of};
ghost use Rattle.bounds.specs.Values.{look_with};
ghost use Rattle.step.specs.Values.{refusal_of};

use crate::Refusal;
use bank::{Bus, Share};
use bounds::Broken;
use card::Delays;
use pins::{Command, Move};

#[tactic(auto, unfolding(crate::specs::Values::refusal_of, bounds::specs::Values::refusal_of))]
pub fn delayed(
    share: Share,
    theirs: Bus,
    delays: Delays,
    command: Command,
    moved: Move,
    stamp: u32,
) -> Result<(), Refusal>
    ensures { refusal_of result ≡ named 10 (first_broken (look_with share theirs) (delay_rules (clocks_of delays) (command_of command) (moved_of moved) share.counter) stamp) }
{
    match bounds::first_broken(share, theirs, delays, command, moved, stamp) {
        None => Ok(()),
        Some(Broken { rule, cycle }) => Err(Refusal::TooSoon { rule, cycle }),
    }
}
