// The part that the writer is told.
ghost use Rattle.std.specs.Prelude.{◌≡◌, ◌≤◌};
ghost use Rattle.rules.specs.Commands.{NOP, is};
ghost use Rattle.rules.specs.Writer.{told_good};
ghost use Rattle.pins.specs.Places.{other_select};
ghost use Rattle.pins.specs.Values.{command_of, told_of};

use crate::Command;

// A pattern alone: crates above write it where they need it, and this crate would offer one function more.
#[tactic(auto, using(crate::proofs::Unlisted::unlisted), unfolding(rules::specs::Commands::is, rules::specs::Commands::code, rules::specs::Commands::kind_of, rules::specs::Commands::carries, rules::specs::Commands::bare, crate::specs::Values::command_of))]
pub fn is_nop(command: Command) -> bool
    ensures { result ≡ is NOP (command_of command) }
{
    matches!(command, Command::Nop)
}

// None in a trace of one part; 0 or 1 in one of two, or none for a NOP.
#[tactic(auto, unfolding(rules::specs::Writer::told_good, crate::specs::Values::told_of))]
pub fn told_good(paired: bool, told: Option<u8>, command: Command) -> bool
    ensures { result ≡ told_good paired (told_of told) (command_of command) }
{
    match told {
        None => !paired || is_nop(command),
        Some(part) => paired && part <= 1,
    }
}

// The CS_n of the part that is not told, high; for none told as for part 0.
#[tactic(auto, unfolding(crate::specs::Values::told_of))]
pub fn other_select(told: Option<u8>) -> u32
    ensures value { result ≡ other_select (told_of told) }
    ensures small { result ≤ 0x400000 }
{
    match told {
        None | Some(0) => 0x400000,
        Some(_) => 0x100000,
    }
}
