// What the line of an entry shows of its command.
ghost use Rattle.std.specs.Prelude.{◌≡◌, ◌≤◌, length};
ghost use Rattle.pins.specs.Values.{command_of};
ghost use Rattle.lines.specs.Names.{shown_bank};
ghost use Rattle.lines.specs.Parts.{name_part, bank_part};
ghost use Rattle.lines.specs.Written.{Lined};

use crate::text::put_text;
use pins::Command;

// The name behind a blank.
#[tactic(auto, unfolding(rules::specs::Lines::name_of, rules::specs::Commands::ap_of, rules::specs::Commands::carries, rules::specs::Commands::bare, rules::specs::Commands::kind_of, pins::specs::Values::command_of))]
pub fn put_name(out: &mut [u8], command: Command) -> usize
    requires { 6 ≤ length out.old }
    ensures memory { Lined (name_part (command_of command)) out.old out.new result }
    ensures small { result ≤ 6 }
{
    match command {
        Command::Nop => put_text(out, *b" NOP"),
        Command::Mrw { .. } => put_text(out, *b" MRW"),
        Command::Mrr { .. } => put_text(out, *b" MRR"),
        Command::Refpb => put_text(out, *b" REFPB"),
        Command::Refab => put_text(out, *b" REFAB"),
        Command::Act { .. } => put_text(out, *b" ACT"),
        Command::Rd { ap: true, .. } => put_text(out, *b" RDA"),
        Command::Rd { ap: false, .. } => put_text(out, *b" RD"),
        Command::Wr { ap: true, .. } => put_text(out, *b" WRA"),
        Command::Wr { ap: false, .. } => put_text(out, *b" WR"),
        Command::Pre { .. } => put_text(out, *b" PRE"),
        Command::Prea => put_text(out, *b" PREA"),
    }
}

// The bank, where one is shown. REFpb shows the counter's. `None` for no bank, where the rules of `bounds` ask for 0.
#[tactic(auto, unfolding(crate::specs::Names::shown_bank, rules::specs::Lines::shows_bank, rules::specs::Past::bank_at, rules::specs::Commands::bank_of, rules::specs::Commands::is, rules::specs::Commands::code, rules::specs::Commands::kind_of, rules::specs::Commands::carries, rules::specs::Commands::bare, pins::specs::Values::command_of))]
pub fn bank_of(command: Command, counter: u8) -> Option<u8>
    ensures { shown_bank result ≡ bank_part (command_of command) counter }
{
    match command {
        Command::Refpb => Some(counter),
        Command::Act { bank, .. }
        | Command::Rd { bank, .. }
        | Command::Wr { bank, .. }
        | Command::Pre { bank } => Some(bank),
        Command::Nop | Command::Mrw { .. } | Command::Mrr { .. } | Command::Refab | Command::Prea =>
            None,
    }
}
