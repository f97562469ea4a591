// The commands on the pins: decoding, the table of kinds, and the writer; the fields that hold them; low clock-enable; two parts on one bus; temperatures; the round counter.
#![tactic(auto)]

mod bits;
mod counter;
mod fields;
mod heat;
mod levels;
mod pairs;
mod reader;
mod selects;
mod table;
mod telling;
mod writer;

pub use counter::counter_after;
pub use fields::{entry_at, stamp_at};
pub use heat::{read_mr4, whose_mr4};
pub use levels::{is_awake, judged, level_after, move_of, read_pins, recorded, rises_from};
pub use reader::decode;
pub use selects::{is_first, is_second, whose_pins};
pub use table::{kind_of, kinds};
pub use writer::write_entry;

// A command with its numbers. A column is even.
#[derive(Clone, Copy, PartialEq, Eq)]
pub enum Command {
    Nop,
    Mrw { ma: u8, op: u8 },
    Mrr { ma: u8 },
    Refpb,
    Refab,
    Act { bank: u8, row: u16 },
    Rd { bank: u8, column: u16, ap: bool },
    Wr { bank: u8, column: u16, ap: bool },
    Pre { bank: u8 },
    Prea,
}

// Why pins are no command: wrong bits (6), or a reserved pattern or an unlisted MA (7).
#[derive(Clone, Copy, PartialEq, Eq)]
pub enum Undecoded {
    WrongBits,
    Reserved,
}

// The level that a part is in.
#[derive(Clone, Copy, PartialEq, Eq)]
pub enum Level {
    Awake,
    PowerDown,
    SelfRefresh,
    Deep,
}

// Clock-enable stays, falls into a level, or rises from one.
#[derive(Clone, Copy, PartialEq, Eq)]
pub enum Move {
    Stays,
    Falls(Level),
    Rises(Level),
}

// What an entry is at a level: what pins are awake with clock-enable high, a move, an entry asleep, what is not permitted here (16), both CS_n low (24),
// or a temperature, the value of MR4 that was read back.
#[derive(Clone, Copy, PartialEq, Eq)]
pub enum Read {
    Plain(Result<Command, Undecoded>),
    Moved(Move),
    Asleep,
    Barred,
    Clash,
    Sensed(u8),
}

// Whose an entry is: of the one part of a trace without tag 25; of part 0; of both, as a temperature is; of part 1; or, with both CS_n high, NOP for both and
// of neither.
#[derive(Clone, Copy, PartialEq, Eq)]
pub enum Whose {
    Sole,
    First,
    Both,
    Second,
    Neither,
}

// Why the writer puts no entry: because of the part or of what the command carries (14), or for want of room (15).
#[derive(Clone, Copy, PartialEq, Eq)]
pub enum Unwritten {
    Unfit,
    NoRoom,
}

// The numbers of an entry field.
#[derive(Clone, Copy, PartialEq, Eq)]
pub struct Front {
    pub stamp: u32,
    pub pins: u32,
}
