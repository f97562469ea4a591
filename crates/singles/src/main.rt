// The documents' cases and other points, by single steps. A line for each entry, temperature, end and move: the case's number, then `taken`, the ledger's number (at an end
// of two parts each one's), or `refused` with the refusal's number, rule and cycle; and a line `changed` where the share of a part that is not there does not come
// back to the bit. Behind them what the writer does for the part that it is told, and what is read.
// A write that fails is passed over. The cases are told in cases.txt; the file stdout is worked out from it by expected.py, over the list of entries.
#![tactic(auto)]

mod calls;
mod lines;
mod places;
mod table;
mod writing;

use bank::Record;
use calls::{Call, Part};
use step::Stepped;

// Where the calls have come to.
#[derive(Clone, Copy)]
struct Stand {
    case: u32,
    part: Part,
    rec: Record,
}

// A part that the card does not have is not looked at.
fn stays(rt: &impl Print, paired: bool, kept: bool) {
    if !paired && !kept {
        let _ = println!(rt; "changed");
    }
}

fn steps(rt: &impl Print, stand: &mut Stand, stepped: Stepped) {
    let _ = println!(rt; "{} {}", stand.case, lines::of_step(stepped.answer));
    let kept = stepped.rec.second == stand.rec.second;
    stays(rt, stand.rec.card.paired, kept);
    stand.rec = stepped.rec;
}

fn ends(rt: &impl Print, stand: &Stand, end: u32) {
    let paired = stand.rec.card.paired;
    let paid = bank::close(stand.rec, end);
    let _ = println!(rt; "{} {}", stand.case, lines::of_end(paired, paid));
    let kept = paid.ledgers.second == stand.rec.second.ledger;
    stays(rt, paired, kept);
}

// The ledger is moved on where it lies in the record.
fn moves(rt: &impl Print, stand: &mut Stand, to: u32) {
    let case = stand.case;
    let Record { card, pace, .. } = stand.rec;
    let ledger = match stand.part {
        Part::First => &mut stand.rec.first.ledger,
        Part::Second => &mut stand.rec.second.ledger,
    };
    let answer = ledger::move_on(ledger, pace, card, to);
    let _ = println!(rt; "{case} {}", lines::of_move(answer, ledger.owed));
}

fn called(rt: &impl Print, stand: &mut Stand, call: Call) {
    let rec = stand.rec;
    match call {
        Call::Case(case) => {
            stand.case = case;
            stand.part = Part::First;
            stand.rec = bank::fresh_record(card::bench());
        }
        Call::Part(part) => stand.part = part,
        Call::Fresh => stand.rec = bank::fresh_record(rec.card),
        Call::Put(place) => places::put(&mut stand.rec, stand.part, place),
        Call::Entry(pins, stamp) => steps(rt, stand, step::step(rec, stamp, pins)),
        Call::Temperature(mr4, stamp) => steps(rt, stand, step::sense(rec, stamp, mr4)),
        Call::End(end) => ends(rt, stand, end),
        Call::Move(to) => moves(rt, stand, to),
    }
}

fn main(rt: HostRuntime) {
    let mut stand = Stand {
        case: 0,
        part: Part::First,
        rec: bank::fresh_record(card::bench()),
    };
    for call in &table::CALLS {
        called(&rt, &mut stand, *call);
    }
    writing::shows(&rt);
}
