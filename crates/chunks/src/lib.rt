// The judge of a file that comes in chunks.
#![tactic(auto)]

mod feeding;
mod fields;
mod heads;
mod leaps;
mod numbers;
mod verdicts;

use bank::Record;
pub use feeding::{feed, finish, start};
use lines::Owed;
pub use verdicts::verdict_line;

// The tags behind the card.
const ENTRY: u8 = 32;

const END: u8 = 33;

const SENSED: u8 = 34;

// What comes back at the end: entries other than NOP, counted refreshes and what is owed at E; or the four numbers of a refusal. No `Result`, since a refused file
// is an answer like the other, which no caller hands on by `?`.
#[derive(Clone, Copy)]
pub enum Verdict {
    Accepted {
        commands: u64,
        refreshes: u64,
        owed: Owed,
    },
    Refused {
        number: u8,
        rule: u8,
        offset: u64,
        cycle: u64,
    },
}

// What was read of a file. `tag` is the tag of the card's newest field, 0 before the first, as `card::may_come` takes it, and 33 behind the end field; the record's
// card is the card so far.
#[derive(Clone, Copy)]
pub struct State {
    tag: u8,
    rec: Record,
    commands: u64,
    refreshes: u64,
    offset: u64,
}

// Why a call came back: it needs more bytes, or more room for lines, or the file is judged.
#[derive(Clone, Copy)]
pub enum What {
    More,
    Full,
    Over(Verdict),
}

// How many bytes went in whole fields, how many bytes of lines were written, and the state then.
#[derive(Clone, Copy)]
pub struct Fed {
    pub what: What,
    pub used: usize,
    pub wrote: usize,
    pub state: State,
}
