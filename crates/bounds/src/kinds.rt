// The commands of which the rules speak.
#![tactic(auto, using(pins::proofs::Unlisted::unlisted), unfolding(crate::proofs::Spanned::opened))]

ghost use Rattle.std.specs.Prelude.{◌≡◌, not, ◌||◌};
ghost use Rattle.rules.specs.Commands.{is, NOP, MRW, MRR, REFPB, REFAB, ACT, RD, WR, PRE, PREA};
ghost use Rattle.pins.specs.Values.{command_of};

use pins::Command;

// Rules 1 to 3, 22 and 24 speak of any command.
pub fn is_not_nop(command: Command) -> bool
    ensures { result ≡ not (is NOP (command_of command)) }
{
    !matches!(command, Command::Nop)
}

// Rule 4: after a REFpb to any bank.
pub fn waits_for_any(command: Command) -> bool
    ensures { result ≡ (is REFPB (command_of command) || is REFAB (command_of command) || is MRW (command_of command) || is PREA (command_of command)) }
{
    matches!(
        command,
        Command::Refpb | Command::Refab | Command::Mrw { .. } | Command::Prea
    )
}

// Rule 4: after a REFpb to the command's own bank.
pub fn waits_for_own(command: Command) -> bool
    ensures { result ≡ (is ACT (command_of command) || is PRE (command_of command)) }
{
    matches!(command, Command::Act { .. } | Command::Pre { .. })
}

pub fn is_column(command: Command) -> bool
    ensures { result ≡ (is RD (command_of command) || is WR (command_of command)) }
{
    matches!(command, Command::Rd { .. } | Command::Wr { .. })
}

pub fn is_act(command: Command) -> bool
    ensures { result ≡ is ACT (command_of command) }
{
    matches!(command, Command::Act { .. })
}

// Those that count as an activation.
pub fn is_active(command: Command) -> bool
    ensures { result ≡ (is ACT (command_of command) || is REFPB (command_of command)) }
{
    matches!(command, Command::Act { .. } | Command::Refpb)
}

// Those that take data off the bus.
pub fn is_reading(command: Command) -> bool
    ensures { result ≡ (is RD (command_of command) || is MRR (command_of command)) }
{
    matches!(command, Command::Rd { .. } | Command::Mrr { .. })
}

pub fn is_writing(command: Command) -> bool
    ensures { result ≡ is WR (command_of command) }
{
    matches!(command, Command::Wr { .. })
}
