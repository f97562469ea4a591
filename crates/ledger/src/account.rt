// The account of a ledger over idle time, in closed form.
ghost use Rattle.std.specs.Prelude.{◌≡◌, ◌≤◌, ◌-◌, ◌^◌, min};

use crate::beat::Beat;
use crate::{Ledger, moving};

// A ledger that 13 lets pass, and when its refreshes are due.
#[derive(Clone, Copy)]
pub struct Account {
    pub ledger: Ledger,
    pub beat: Beat,
    ghost low: { ledger.owed ≤ 16 },
}

// The first cycle at which 19 or 20 fails with no counted refresh, and which of them does: a word of the account, as `Broken` is one of the delay rules (`bounds`).
#[derive(Clone, Copy)]
pub struct First {
    pub rule: u8,
    pub cycle: u64,
}

impl Account {
    ghost use Rattle.ledger.specs.Values.{over_at, late_at};
    ghost use Rattle.ledger.specs.Parts.{beat_as, number_in, cycle_in, FirstAs};

    // The first number after the ledger's own at which 19 fails, or the last number that there is.
    fn over_at(self) -> u64
        ensures { result ≡ min (over_at (beat_as self.beat) (number_in self.ledger) self.ledger.owed) (2 ^ 64 - 1) }
    {
        let next = self.beat.next_after(moving::number_of(self.ledger));
        next.saturating_add(u64::from(16 - self.ledger.owed) * self.beat.span)
    }

    // The first one at which 20 fails.
    fn late_at(self) -> u64
        ensures { result ≡ late_at self.beat.span (number_in self.ledger) self.ledger.since }
    {
        let n = u64::from(moving::number_of(self.ledger));
        (n + 1).max(u64::from(self.ledger.since) + 9 * self.beat.span + 1)
    }

    // A later number as a cycle of the trace: as far after the ledger's cycle as it is after the number of that cycle.
    fn cycle_of(self, number: u64) -> u64
        requires later { number_in self.ledger ≤ number }
        requires small { number ≤ 2 ^ 63 }
        ensures { result ≡ cycle_in self.ledger number }
    {
        u64::from(self.ledger.at) + (number - u64::from(moving::number_of(self.ledger)))
    }

    // None where the cycles of the ledger's level are not counted.
    pub fn first_failing(self) -> Option<First>
        ensures { FirstAs (beat_as self.beat) self.ledger result }
    {
        if moving::stopped(self.ledger.level) {
            return None;
        }
        let over = self.over_at();
        let late = self.late_at();
        Some(First {
            rule: if over <= late { 19 } else { 20 },
            cycle: self.cycle_of(over.min(late)),
        })
    }
}
