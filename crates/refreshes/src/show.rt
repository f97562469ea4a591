// A ledger moved on or taken through an entry's cycle, and its line. A write that fails is passed over.
use ledger::{After, Effect, Ledger, Pace, Refusal};
use pins::{Level, Move};
use std::fmt;

// What came back, a level by its place among the four.
#[derive(Clone, Copy)]
struct Line(After);

impl fmt::Display for Line {
    fn fmt<W: fmt::Write>(&self, f: &mut fmt::Formatter<W>) -> fmt::Result {
        match self.0.answer {
            Ok(()) => f.write_str("0 0 0")?,
            Err(Refusal::BadRecord) => f.write_str("13 0 0")?,
            Err(Refusal::Earlier) => f.write_str("5 0 0")?,
            Err(Refusal::Overdue { rule, cycle }) => write!(f, "11 {rule} {cycle}")?,
        }
        let Ledger {
            at,
            owed,
            since,
            skipped,
            level,
        } = self.0.ledger;
        write!(f, " {at} {owed} {since} {skipped} {}", level as u8)
    }
}

// In the order of a line's numbers.
pub fn lent(at: u32, owed: u8, since: u32, skipped: u32, level: Level) -> Ledger {
    Ledger {
        at,
        owed,
        since,
        skipped,
        level,
    }
}

// Awake, with every cycle counted.
pub fn stands(at: u32, owed: u8, since: u32) -> Ledger {
    lent(at, owed, since, 0, Level::Awake)
}

// With any next due.
pub fn lent_pace(next: u64, mr4: u8) -> Pace {
    Pace { next, mr4 }
}

pub fn effect(counted: bool, sensed: bool, moved: Move) -> Effect {
    Effect {
        counted,
        sensed,
        moved,
    }
}

// The pace of the bench card before any temperature.
pub fn first() -> Pace {
    ledger::first_pace(card::bench())
}

// An entry that is no counted refresh, with its move; and a refresh. The ledger then, with no line.
pub fn comes(ledger: Ledger, stamp: u32, moved: Move) -> Ledger {
    let effect = effect(false, false, moved);
    ledger::entered(ledger, first(), card::bench(), stamp, effect).ledger
}

pub fn refreshed(ledger: Ledger, stamp: u32) -> Ledger {
    let effect = effect(true, false, Move::Stays);
    ledger::entered(ledger, first(), card::bench(), stamp, effect).ledger
}

pub fn show(rt: &impl Print, after: After) -> Ledger {
    let _ = println!(rt; "{}", Line(after));
    after.ledger
}

pub fn moves_at(rt: &impl Print, ledger: Ledger, pace: Pace, to: u32) -> Ledger {
    show(rt, ledger::moved(ledger, pace, card::bench(), to))
}

pub fn enters_at(
    rt: &impl Print,
    ledger: Ledger,
    pace: Pace,
    stamp: u32,
    effect: Effect,
) -> Ledger {
    show(
        rt,
        ledger::entered(ledger, pace, card::bench(), stamp, effect),
    )
}

pub fn moves(rt: &impl Print, ledger: Ledger, to: u32) -> Ledger {
    moves_at(rt, ledger, first(), to)
}

pub fn enters(rt: &impl Print, ledger: Ledger, stamp: u32, counted: bool, moved: Move) -> Ledger {
    enters_at(rt, ledger, first(), stamp, effect(counted, false, moved))
}

// A line of one number, and one of a pace.
pub fn show_number(rt: &impl Print, n: u64) {
    let _ = println!(rt; "{n}");
}

pub fn show_pace(rt: &impl Print, pace: Pace) -> Pace {
    let _ = println!(rt; "{} {}", pace.next, pace.mr4);
    pace
}
