// The end offered to a record.
ghost use Rattle.bank.specs.Both.{ClosedAs};

use crate::{Paid, Record, both, sound};
use ledger::Refusal;

// Refused in this order: 13, 5, 11. The ledgers that come back stand at E.
#[tactic(auto, using(crate::proofs::Closed::bad, crate::proofs::Closed::early, crate::proofs::Closed::moved_on_lem))]
pub fn close(rec: Record, end: u32) -> Paid
    ensures { ClosedAs rec end result }
{
    let ledgers = both::ledgers_of(rec);
    // The ledgers as they stood, which `ClosedAs` names on a refusal.
    if !sound::good(rec) {
        return Paid {
            ledgers,
            answer: Err(Refusal::BadRecord),
        };
    }
    if !rec.last.is_by(end) {
        return Paid {
            ledgers,
            answer: Err(Refusal::Earlier),
        };
    }
    both::moved(ledgers, rec.pace, rec.card, end)
}
