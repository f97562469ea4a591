// A record of each bank, moved on by one entry at a time.
#![tactic(auto)]

mod both;
mod ending;
mod fresh;
mod parts;
mod present;
mod reading;
mod sound;
mod taking;

pub use both::{entered, ledgers_of};
use card::{Card, Modes};
pub use ending::close;
pub use fresh::{fresh_record, idle_bus};
use ledger::{Ledger, Pace, Refusal};
pub use parts::{own, theirs};
pub use sound::good;
pub use taking::{after, once_at, pushed, share_after};

// The stamp of an entry. That there is no such entry yet is a state of its own, since a stamp uses all 32 bits.
// A flag with a value beside it: a record that is lent to `good` or `close` may hold any two, and `last_of` reads them; `stamp` gives an Option.
#[derive(Clone, Copy, PartialEq, Eq, Default)]
pub struct Once {
    pub seen: bool,
    pub at: u32,
}

// The same with the mode registers as they stood there.
// Plain data, as `good` is lent them and `share_of` reads them; `stamp` and `mr2` give Options.
#[derive(Clone, Copy, PartialEq, Eq, Default)]
pub struct Noted {
    pub seen: bool,
    pub at: u32,
    pub modes: Modes,
}

// One of each bank.
// An array of eight stamps, as document 01 names it, and one of eight flags: `good` is lent any two, and `share_of` reads them. `stamp` gives an Option.
#[derive(Clone, Copy, PartialEq, Eq, Default)]
pub struct Each {
    pub seen: [bool; 8],
    pub at: [u32; 8],
}

// The same with the mode registers as they stood there.
// `good` is lent any three arrays, and `share_of` reads them; `stamps` and `mr2` give Options.
#[derive(Clone, Copy, PartialEq, Eq, Default)]
pub struct NotedEach {
    pub seen: [bool; 8],
    pub at: [u32; 8],
    pub modes: [Modes; 8],
}

// The last four activations of all banks, the newest first; a count above 4 is read as 4.
// The count stands beside the array, which document 01 names: `good` is lent any count, and `four` reads it.
#[derive(Clone, Copy, PartialEq, Eq, Default)]
pub struct Four {
    pub count: u8,
    pub at: [u32; 4],
}

// The latest entries of all banks together.
#[derive(Clone, Copy, PartialEq, Eq, Default)]
pub struct Latest {
    pub mrw: Once,
    pub mrr: Once,
    pub refab: Once,
    pub refpb: Once,
    pub prea: Once,
}

// Those that use the data bus, of all banks together; `turn` is the latest RD or MRR.
#[derive(Clone, Copy, PartialEq, Eq, Default)]
pub struct Bus {
    pub rd: Once,
    pub wr: Noted,
    pub turn: Noted,
}

// The latest entries to each bank. A PRE counts where no later PRE-all came, and a PRE-all where no later PRE of the bank did.
#[derive(Clone, Copy, PartialEq, Eq, Default)]
pub struct Banks {
    pub opened: [bool; 8],
    pub refpb: Each,
    pub pre: Each,
    pub act: Each,
    pub rd: Each,
    pub rda: Each,
    pub wr: NotedEach,
    pub wra: NotedEach,
}

// The latest moves of clock-enable: a fall, and a rise from power-down and from self-refresh.
#[derive(Clone, Copy, PartialEq, Eq, Default)]
pub struct Moves {
    pub fall: Once,
    pub power_exit: Once,
    pub self_exit: Once,
}

// What is kept of a part; its level is the ledger's.
// Fields that anyone may set, since a record is lent: `good` says what they keep.
#[derive(Clone, Copy, PartialEq, Eq)]
pub struct Share {
    pub modes: Modes,
    pub counter: u8,
    pub latest: Latest,
    pub moves: Moves,
    pub bus: Bus,
    pub four: Four,
    pub banks: Banks,
    pub ledger: Ledger,
}

// `last` is the last entry's stamp, of whichever part, and the pace is one for all parts. Where the card has no tag 25 there is one part, and `second` is not
// looked at.
// Fields that anyone may set, since a record is lent: `good` says what they keep.
#[derive(Clone, Copy)]
pub struct Record {
    pub card: Card,
    pub last: Once,
    pub pace: Pace,
    pub first: Share,
    pub second: Share,
}

// Of each part.
#[derive(Clone, Copy)]
pub struct Ledgers {
    pub first: Ledger,
    pub second: Ledger,
}

// What the account answers, and the ledgers then: as they stood, where it is refused. Both, and no `Result<Ledgers, Refusal>`, since `LeftBoth` says what they are on a refusal too.
#[derive(Clone, Copy)]
pub struct Paid {
    pub ledgers: Ledgers,
    pub answer: Result<(), Refusal>,
}
