// The round counter of REFpb.
ghost use Rattle.std.specs.Prelude.{◌≡◌};
ghost use Rattle.pins.specs.Counter.{counter_on};
ghost use Rattle.pins.specs.Values.{command_of, moved_of};

use crate::{Command, Level, Move, levels};

// The counter after a command with its move. One above 7 goes round as 7 does.
#[tactic(auto, using(crate::proofs::Unlisted::unlisted), unfolding(crate::specs::Counter::counter_on, rules::specs::Commands::is, rules::specs::Commands::code, rules::specs::Commands::kind_of, rules::specs::Commands::carries, rules::specs::Commands::bare, crate::specs::Values::command_of, crate::specs::Values::level_of))]
pub fn counter_after(counter: u8, command: Command, moved: Move) -> u8
    ensures { result ≡ counter_on (command_of command) (moved_of moved) counter }
{
    if levels::rises_from(Level::SelfRefresh, moved) {
        return 0;
    }
    match command {
        Command::Refab => 0,
        Command::Refpb if counter < 7 => counter + 1,
        Command::Refpb => 0,
        _ => counter,
    }
}
