// The banks for which a command is asked.
#![tactic(auto, using(pins::proofs::Unlisted::unlisted), unfolding(crate::proofs::Spanned::opened))]

ghost use Rattle.std.specs.Prelude.{◌≡◌};
ghost use Rattle.rules.specs.Past.{bank_at};
ghost use Rattle.rules.specs.Delays.{idle_use, precharged};
ghost use Rattle.pins.specs.Values.{command_of};
ghost use Rattle.bounds.specs.Parts.{asked_of};

use pins::Command;

#[derive(Clone, Copy)]
pub enum Banks {
    One(u8),
    Every,
    AllBut(u8),
}

// The bank that a command acts on: for REFpb the counter's; 0 for one that acts on none, as the rules' `bank_at` has it.
pub fn bank_at(command: Command, counter: u8) -> u8
    ensures { result ≡ bank_at (command_of command) counter }
{
    match command {
        Command::Act { bank, .. }
        | Command::Rd { bank, .. }
        | Command::Wr { bank, .. }
        | Command::Pre { bank } => bank,
        Command::Refpb => counter,
        _ => 0,
    }
}

// The banks of which the command is an idle use: all for REFab and MRW, the command's own for ACT and REFpb.
pub fn idle(command: Command, counter: u8) -> Option<Banks>
    ensures { asked_of result ≡ idle_use (command_of command) counter }
{
    match command {
        Command::Refab | Command::Mrw { .. } => Some(Banks::Every),
        Command::Act { bank, .. } => Some(Banks::One(bank)),
        Command::Refpb => Some(Banks::One(counter)),
        _ => None,
    }
}

// The banks that a precharge names.
pub fn precharged(command: Command) -> Option<Banks>
    ensures { asked_of result ≡ precharged (command_of command) }
{
    match command {
        Command::Prea => Some(Banks::Every),
        Command::Pre { bank } => Some(Banks::One(bank)),
        _ => None,
    }
}
