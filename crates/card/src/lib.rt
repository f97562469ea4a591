// The device card by value: the ranges of its values, the latencies of MR2, nWR by MR1 and MR2, its delays in clocks by the temperature, and its fields read from bytes.
#![tactic(auto)]

mod benched;
mod heat;
mod ranges;
mod registers;
mod tags;
mod timings;
mod units;
mod values;

pub use benched::bench;
pub use heat::mr4_good;
pub use ranges::in_range;
pub use registers::{latency_of, mr2_good, mrw_value_good, nwr_of};
pub use tags::{may_come, wrong_tag};
pub use timings::{delays_at, interval_at};
pub use units::greater;
pub use values::{blank, length_good, read_value};

#[derive(Clone, Copy)]
pub struct Picoseconds(pub u64);

#[derive(Clone, Copy, Default)]
pub struct Femtoseconds(pub u64);

#[derive(Clone, Copy)]
pub struct Clocks(pub u64);

// `durations` and `floors` are two columns, the form that document 01 names and `card_of` reads, of tags 5 to 22: trcd, trppb, trpab, tras, trrd, tfaw, trtp, twr, twtr, tdqsck,
// trfcab, trfcpb, tmrr, tmrw, tcke, txp, tckesr, txsr. `sleeps`: tags 19 to 22 are there. `programmed`: tag 23 is there; `mr1`: its
// starting MR1. `paired`: tag 25 is there; `gap`: its clocks between the two parts. `raise`: tag 26, what the hottest code of MR4 adds
// to the first five durations; 0 where the card has none.
// A flag beside its byte, and no Option: callers of `in_range` and `delays_at` may hand any values, also a byte whose flag is off; and a raise of 0 is a number as
// `card_of` reads it, which raises nothing.
#[derive(Clone, Copy, Default)]
pub struct Card {
    pub period: Femtoseconds,
    pub mr2: u8,
    pub groups: u16,
    pub trefi: u32,
    pub durations: [u32; 18],
    pub floors: [u8; 18],
    pub sleeps: bool,
    pub programmed: bool,
    pub mr1: u8,
    pub paired: bool,
    pub gap: u8,
    pub raise: u32,
}

// In clocks, in 32 bits, which hold every delay of a card in range.
#[derive(Clone, Copy)]
pub struct Delays {
    pub trcd: u32,
    pub trppb: u32,
    pub trpab: u32,
    pub tras: u32,
    pub trc: u32,
    pub trrd: u32,
    pub tfaw: u32,
    pub trtp: u32,
    pub twr: u32,
    pub twtr: u32,
    pub tdqsck: u32,
    pub trfcab: u32,
    pub trfcpb: u32,
    pub tmrr: u32,
    pub tmrw: u32,
    pub tcke: u32,
    pub txp: u32,
    pub tckesr: u32,
    pub txsr: u32,
    pub gap: u32,
}

// The mode registers that the delay rules go by. `programmed`: MR1 was written, or the card has one; else `mr1` is not looked at.
// A flag beside its byte, and no Option: callers of `nwr_of`, and who lends a record of them, may hand any values.
#[derive(Clone, Copy, PartialEq, Eq, Default)]
pub struct Modes {
    pub mr2: u8,
    pub programmed: bool,
    pub mr1: u8,
}

#[derive(Clone, Copy)]
pub struct Latency {
    pub rl: u8,
    pub wl: u8,
}

// What is wrong with a tag: none of the card's or the trace's, one that was passed, or one that comes too early.
#[derive(Clone, Copy, PartialEq, Eq)]
pub enum Misplaced {
    Unknown,
    Passed,
    Early,
}

// What refuses a tag, and the tag that is expected there.
#[derive(Clone, Copy, PartialEq, Eq)]
pub struct Wrong {
    pub why: Misplaced,
    pub expected: u8,
}

// What refuses a field of the card: its tag, its length, or its value, which is out of range.
#[derive(Clone, Copy, PartialEq, Eq)]
pub enum Unread {
    Tag(Wrong),
    Length,
    Value,
}
