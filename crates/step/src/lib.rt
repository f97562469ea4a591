// An entry, of pins or a temperature, offered to a record: 13, 5, 11 below its stamp, 6, 24, 7, 8, 16, 9, 26, 10, 11 at its stamp; and the record then. A run of entries of pins, up
// to the first that is refused.
#![tactic(auto)]

mod account;
mod cycles;
mod delays;
mod kinds;
mod offering;
mod pairs;
mod progress;
mod quick;
mod reading;
mod running;
mod single;
mod turns;
mod waits;

pub use account::as_told;
use bank::Record;
pub use offering::{sense, step};
pub use turns::run;

// What refuses an entry; 10 and 11 with the first cycle, and the rule: a name that the documents give it, so a number.
#[derive(Clone, Copy, PartialEq, Eq)]
pub enum Refusal {
    BadRecord,
    Early,
    Overdue { rule: u8, cycle: u64 },
    WrongBits,
    Clash,
    Reserved,
    State,
    Barred,
    Value,
    Code,
    TooSoon { rule: u8, cycle: u64 },
}

// The answer, and the record then: as it was, to the bit, where the entry is refused. Both, and no `Result<Record, Refusal>`, since `Left` and `judges` say what it is
// on a refusal too.
#[derive(Clone, Copy)]
pub struct Stepped {
    pub rec: Record,
    pub answer: Result<(), Refusal>,
}

// How far a run came: the record then, the bytes taken, how many of the entries are not NOP, and how many are counted refreshes.
#[derive(Clone, Copy)]
pub struct Ran<R> {
    pub rec: R,
    pub used: usize,
    pub commands: u64,
    pub refreshes: u64,
}
