// The line of the verdict.
ghost use Rattle.std.specs.Prelude.{◌≤◌, length};
ghost use Rattle.rules.specs.File.{accepted, refused};
ghost use Rattle.rules.specs.Lines.{ledger_parts, verdict_line};
ghost use Rattle.lines.specs.Parts.{owed_part};
ghost use Rattle.lines.specs.Values.{ledgers_of};
ghost use Rattle.lines.specs.Written.{Lined, Written};

use crate::Owed;
use crate::numbers::{put_next, put_number};
use crate::text::put_text;

#[tactic(auto, using(crate::proofs::Decimals::short_byte, crate::proofs::Decimals::short_digit, crate::proofs::Decimals::owed_from, crate::proofs::Puts::lined_room, crate::proofs::Puts::lined_more))]
fn put_owed(out: &mut [u8], owed: u8) -> usize
    requires { 4 ≤ length out.old }
    ensures memory { Lined (owed_part owed) out.old out.new result }
    ensures small { result ≤ 4 }
{
    if 8 <= owed {
        return put_next(out, u64::from(owed - 8));
    }
    let sign = put_text(out, *b" -");
    sign + put_number(&mut out[sign..], u64::from(8 - owed))
}

// The first part's before the second's.
#[tactic(auto, using(crate::proofs::Puts::lined_room))]
fn put_ledgers(out: &mut [u8], owed: Owed) -> usize
    requires { 8 ≤ length out.old }
    ensures memory { Lined (ledger_parts (ledgers_of owed)) out.old out.new result }
    ensures small { result ≤ 8 }
{
    match owed {
        Owed::One(only) => put_owed(out, only),
        Owed::Two(first, second) => {
            let at = put_owed(out, first);
            at + put_owed(&mut out[at..], second)
        }
    }
}

// The line of a file that is accepted, at the start of `out`, and how many bytes it has. Where `out` has under 64 bytes of room nothing is written and the answer
// is 0.
#[tactic(auto, using(crate::proofs::Decimals::short_word, crate::proofs::Puts::lined_room, crate::proofs::Puts::lined_more))]
pub fn accepted_line(out: &mut [u8], commands: u64, refreshes: u64, owed: Owed) -> usize
    ensures { Written (verdict_line (accepted commands refreshes (ledgers_of owed))) out.old out.new result }
{
    if out.len() < 64 {
        return 0;
    }
    let mut at = put_text(out, *b"accepted ");
    at += put_number(&mut out[at..], commands);
    at += put_next(&mut out[at..], refreshes);
    at += put_ledgers(&mut out[at..], owed);
    at + put_text(&mut out[at..], *b"\n")
}

// The line of a file that is refused; 0 for want of room as there (`Written`).
#[tactic(auto, using(crate::proofs::Decimals::short_byte, crate::proofs::Decimals::short_word, crate::proofs::Puts::lined_room, crate::proofs::Puts::lined_more))]
pub fn refused_line(out: &mut [u8], number: u8, rule: u8, offset: u64, cycle: u64) -> usize
    ensures { Written (verdict_line (refused number rule offset cycle)) out.old out.new result }
{
    if out.len() < 64 {
        return 0;
    }
    let mut at = put_text(out, *b"refused ");
    at += put_number(&mut out[at..], u64::from(number));
    at += put_next(&mut out[at..], u64::from(rule));
    at += put_next(&mut out[at..], offset);
    at += put_next(&mut out[at..], cycle);
    at + put_text(&mut out[at..], *b"\n")
}
