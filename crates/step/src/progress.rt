// How far a run came, entry by entry and part by part.
ghost use Rattle.std.specs.Prelude.{◌≡◌, cond};
ghost use Rattle.rules.specs.Commands.{NOP, is};
ghost use Rattle.rules.specs.Past.{is_counted};
ghost use Rattle.pins.specs.Values.{command_of};
ghost use Rattle.step.specs.Runs.{ran, behind};
ghost use Rattle.step.specs.Parts.{Fitting};

use crate::Ran;
use crate::account::counts;
use pins::Command;

impl<R> Ran<R> {
    pub(crate) fn start(rec: R) -> Ran<R>
        ensures { result ≡ ran rec 0 0 0 }
    {
        Ran {
            rec,
            used: 0,
            commands: 0,
            refreshes: 0,
        }
    }

    // One entry that was taken.
    #[tactic(auto, using(pins::proofs::Unlisted::unlisted), unfolding(rules::specs::Commands::is, rules::specs::Commands::code, rules::specs::Commands::kind_of, rules::specs::Commands::carries, rules::specs::Commands::bare, pins::specs::Values::command_of))]
    pub(crate) fn entry(rec: R, command: Command, counter: u8) -> Ran<R>
        ensures { result ≡ ran rec 10 (cond (is NOP (command_of command)) 0 1) (cond (is_counted (command_of command) counter) 1 0) }
    {
        Ran {
            rec,
            used: 10,
            commands: u64::from(!matches!(command, Command::Nop)),
            refreshes: u64::from(counts(command, counter)),
        }
    }
}

impl<R: Drop> Ran<R> {
    pub(crate) fn then(self, more: Ran<R>) -> Ran<R>
        requires { Fitting self more }
        ensures { result ≡ behind self.used self.commands self.refreshes more }
    {
        Ran {
            used: self.used + more.used,
            commands: self.commands + more.commands,
            refreshes: self.refreshes + more.refreshes,
            ..more
        }
    }
}
