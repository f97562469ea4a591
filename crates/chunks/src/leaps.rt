// Entries of pins, as many at a time as a run takes.
ghost use Rattle.std.specs.Prelude.{◌≡◌, ◌-◌, ◌*◌, ◌≤◌, true, false, ◌||◌, length, nat_le};
ghost use Rattle.lines.specs.Written.{Lined};
ghost use Rattle.chunks.specs.Parts.{lines_of, state_with, Leapt};

use crate::{ENTRY, State};
use bank::Record;
use step::Ran;

// How many bytes were taken, how many bytes of lines were written, and the state then.
#[derive(Clone, Copy)]
pub struct Ahead {
    pub used: usize,
    pub wrote: usize,
    pub state: State,
}

// How many entries are taken at most, so that each has room for its line, which has 24 bytes at most, and the last has 64 bytes of room.
fn most(quiet: bool, room: usize) -> usize
    requires { (quiet || nat_le 64 room) ≡ true }
    ensures { (1 ≤ result) × (quiet ≡ false → 24 * result ≤ room - 40) }
{
    if quiet { usize::MAX } else { (room - 40) / 24 }
}

// The lines of so many entries, one behind the other, from a record on.
fn put_lines(rec: Record, bytes: &[u8], count: usize, out: &mut [u8]) -> usize
    requires { (10 * count ≤ length bytes.now) × (24 * count ≤ length out.old - 40) }
    ensures { Lined (lines_of count rec bytes.now) out.old out.new result }
{
    lines::entry_lines(
        out,
        bytes,
        count,
        rec.card.sleeps,
        rec.card.paired,
        rec.first.ledger.level,
        rec.first.counter,
        rec.second.counter,
    )
}

impl State {
    // Behind what a run took.
    #[tactic(auto, unfolding(crate::specs::Parts::state_with, crate::specs::Took::wrapped))]
    pub(crate) fn with(&self, ran: Ran<Record>) -> State
        ensures { result ≡ state_with self.now ran }
    {
        State {
            rec: ran.rec,
            commands: self.commands.wrapping_add(ran.commands),
            refreshes: self.refreshes.wrapping_add(ran.refreshes),
            offset: self.offset.wrapping_add(ran.used as u64),
            ..*self
        }
    }

    // The entries that are taken at the start, if there are any: none before the card is whole, and none behind the end field. Their lines are written unless `quiet`.
    // The two stay apart, since no clause can say what is written through an `Option<&mut [u8]>`.
    pub(crate) fn leap(self, bytes: &[u8], out: &mut [u8], quiet: bool) -> Option<Ahead>
        requires { (quiet || nat_le 64 (length out.old)) ≡ true }
        ensures { Leapt quiet self bytes.now out.old out.new result }
    {
        if !card::may_come(self.rec.last.seen, self.tag, ENTRY) {
            return None;
        }
        let ran = step::run(self.rec, bytes, most(quiet, out.len()));
        if ran.used == 0 {
            return None;
        }
        let wrote = if quiet {
            0
        } else {
            put_lines(self.rec, bytes, ran.used / 10, out)
        };
        Some(Ahead {
            used: ran.used,
            wrote,
            state: self.with(ran),
        })
    }
}
