// The line of an entry.
ghost use Rattle.std.specs.Prelude.{◌≤◌, ◌++◌, length};
ghost use Rattle.rules.specs.Lines.{entry_line, shown_part};
ghost use Rattle.pins.specs.Values.{command_of, whose_of};
ghost use Rattle.lines.specs.Names.{shown_bank};
ghost use Rattle.lines.specs.Parts.{name_part, bank_part};
ghost use Rattle.lines.specs.Written.{Lined};

use crate::names::{bank_of, put_name};
use crate::numbers::{put_next, put_number};
use crate::text::put_text;
use pins::{Command, Whose};

#[tactic(auto, using(crate::proofs::Decimals::short_byte), unfolding(crate::specs::Names::shown_bank))]
fn put_bank(out: &mut [u8], bank: Option<u8>) -> usize
    requires { 4 ≤ length out.old }
    ensures memory { Lined (shown_bank bank) out.old out.new result }
    ensures small { result ≤ 4 }
{
    match bank {
        Some(bank) => put_next(out, u64::from(bank)),
        None => put_text(out, *b" -"),
    }
}

#[tactic(auto, using(crate::proofs::Puts::lined_room, crate::proofs::Puts::lined_more))]
fn put_command(out: &mut [u8], command: Command, counter: u8) -> usize
    requires { 10 ≤ length out.old }
    ensures memory { Lined (name_part (command_of command) ++ bank_part (command_of command) counter) out.old out.new result }
    ensures small { result ≤ 10 }
{
    let named = put_name(out, command);
    named + put_bank(&mut out[named..], bank_of(command, counter))
}

// Nothing where there is one part, and for what is of both, which has no line.
#[tactic(auto, using(crate::proofs::Puts::lined_nothing), unfolding(rules::specs::Lines::shown_part, rules::specs::Lines::decimal, rules::specs::Lines::digits, pins::specs::Values::whose_of))]
fn put_part(out: &mut [u8], whose: Whose) -> usize
    requires { 2 ≤ length out.old }
    ensures memory { Lined (shown_part (whose_of whose)) out.old out.new result }
    ensures small { result ≤ 2 }
{
    match whose {
        Whose::Sole | Whose::Both => 0,
        Whose::First => put_text(out, *b" 0"),
        Whose::Second => put_text(out, *b" 1"),
        Whose::Neither => put_text(out, *b" -"),
    }
}

#[tactic(auto, using(crate::proofs::Decimals::short_stamp, crate::proofs::Puts::lined_room, crate::proofs::Puts::lined_more))]
pub fn put_line(out: &mut [u8], stamp: u32, command: Command, whose: Whose, counter: u8) -> usize
    requires { 64 ≤ length out.old }
    ensures memory { Lined (entry_line stamp (command_of command) (whose_of whose) counter) out.old out.new result }
    ensures small { result ≤ 24 }
{
    let mut at = put_number(out, u64::from(stamp));
    at += put_command(&mut out[at..], command, counter);
    at += put_part(&mut out[at..], whose);
    at + put_text(&mut out[at..], *b"\n")
}
