// The refresh account by value, and its one function behind `&mut`.
#![tactic(auto)]

ghost use Rattle.rules.specs.Lent.{move_refusal, moved_on};
ghost use Rattle.card.specs.Values.{card_of};
ghost use Rattle.ledger.specs.Values.{ledger_of, pace_of, Left, after_as};

use card::Card;
use pins::{Level, Move};

mod account;
mod beat;
mod calls;
mod entering;
mod moving;
mod pacing;

pub use calls::{deadline, entered, moved};
pub use moving::number_of;
pub use pacing::{first_pace, respaced};

// The ledger as after cycle `at`. `owed` is the number with 8 added: 0 to 16 for -8 to 8. `skipped` of the cycles up to `at` were not counted; counted
// cycles have numbers, and the gap counts from number `since`, that of the last counted refresh or of a later temperature, or 0. The level says whether the
// cycles after `at` count.
// Plain data, its fields public: a caller may lend `moved` and `entered` any values, and 13 says which are sound.
#[derive(Clone, Copy, PartialEq, Eq)]
pub struct Ledger {
    pub at: u32,
    pub owed: u8,
    pub since: u32,
    pub skipped: u32,
    pub level: Level,
}

// When refreshes are due: one at number `next`, which may be any, none before it, and one every interval after it, by the MR4 value that was read back last.
// Plain data, its fields public: a caller may lend `moved` and `entered` any values, and any are taken.
#[derive(Clone, Copy, PartialEq, Eq)]
pub struct Pace {
    pub next: u64,
    pub mr4: u8,
}

// What an entry does to a ledger: whether it is a counted refresh, whether it is a temperature, and its move.
#[derive(Clone, Copy)]
pub struct Effect {
    pub counted: bool,
    pub sensed: bool,
    pub moved: Move,
}

// Why a ledger is refused: 13, 5, or 11 with the first cycle that fails and its rule. The rule, 19 or 20, is its name in the documents, and stays a number.
#[derive(Clone, Copy, PartialEq, Eq)]
pub enum Refusal {
    BadRecord,
    Earlier,
    Overdue { rule: u8, cycle: u64 },
}

// The answer, and the ledger then: as it was, where it is refused. Both, and no `Result<Ledger, Refusal>`, since `Left` says what it is on a refusal too.
#[derive(Clone, Copy)]
pub struct After {
    pub ledger: Ledger,
    pub answer: Result<(), Refusal>,
}

// `moved`, of a ledger that is lent.
pub fn move_on(ledger: &mut Ledger, pace: Pace, card: Card, to: u32) -> Result<(), Refusal>
    ensures { Left (move_refusal (card_of card) (pace_of pace) (ledger_of ledger.old) to) (ledger_of ledger.old) (moved_on (card_of card) (pace_of pace) (ledger_of ledger.old) to) (after_as ledger.new result) }
{
    let after = moved(*ledger, pace, card, to);
    *ledger = after.ledger;
    after.answer
}
