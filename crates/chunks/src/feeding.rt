// The whole fields of a run of bytes.
ghost use Rattle.std.specs.Prelude.{◌≡◌, ◌||◌, length, nat_le};
ghost use Rattle.chunks.specs.Heard.{start_of, heard_of, FedAs, owed_of, ended_at, finished_of};

use crate::numbers::Numbers;
use crate::{END, Fed, State, Verdict, What};
use lines::Owed;

// Before the first byte.
#[tactic(auto, unfolding(crate::specs::Heard::start_of))]
pub fn start() -> State
    ensures { result ≡ start_of }
{
    State {
        tag: 0,
        rec: bank::fresh_record(card::blank()),
        commands: 0,
        refreshes: 0,
        offset: 0,
    }
}

// Whether a line may be written, of whatever length.
fn has_room(quiet: bool, room: usize) -> bool
    ensures { result ≡ (quiet || nat_le 64 room) }
{
    quiet || 64 <= room
}

// All the whole fields at the start of `bytes`, with the lines of the entries, unless `quiet`, as far as there is room for them (`FedAs`).
pub fn feed(mut state: State, bytes: &[u8], out: &mut [u8], quiet: bool) -> Fed
    ensures { FedAs (heard_of quiet (length out.old) state bytes.now) out.old out.new result }
{
    let mut used = 0;
    let mut wrote = 0;
    let what = loop {
        if !has_room(quiet, out.len() - wrote) {
            break What::Full;
        }
        if let Some(ahead) = state.leap(&bytes[used..], &mut out[wrote..], quiet) {
            used += ahead.used;
            wrote += ahead.wrote;
            state = ahead.state;
            continue;
        }
        match state.take_field(&bytes[used..]) {
            Ok(Some(taken)) => {
                used += taken.size;
                state = taken.state;
            }
            Ok(None) => break What::More,
            Err(numbers) => break What::Over(numbers.at(state.offset)),
        }
    };
    Fed {
        what,
        used,
        wrote,
        state,
    }
}

impl State {
    // By each part that there is.
    #[tactic(auto, unfolding(crate::specs::Heard::owed_of))]
    fn owed(&self) -> Owed
        ensures { result ≡ owed_of self.now.rec }
    {
        let rec = &self.rec;
        if rec.card.paired {
            Owed::Two(rec.first.ledger.owed, rec.second.ledger.owed)
        } else {
            Owed::One(rec.first.ledger.owed)
        }
    }

    // Where the file ends here.
    #[tactic(auto, unfolding(crate::specs::Heard::ended_at, crate::specs::Parts::verdict_at, rules::specs::Checks::refusal))]
    fn verdict(&self) -> Verdict
        ensures { result ≡ ended_at self.now }
    {
        if self.tag == END {
            Verdict::Accepted {
                commands: self.commands,
                refreshes: self.refreshes,
                owed: self.owed(),
            }
        } else {
            Numbers::only(1).at(self.offset)
        }
    }
}

// Where no more bytes come than these.
pub fn finish(state: State, rest: &[u8]) -> Verdict
    ensures { result ≡ finished_of state rest.now }
{
    let fed = feed(state, rest, &mut [], true);
    match fed.what {
        What::Over(verdict) => verdict,
        What::More | What::Full => fed.state.verdict(),
    }
}
