// A ledger moved on through idle time.
ghost use Rattle.std.specs.Prelude.{◌≡◌, ◌≤◌};
ghost use Rattle.std.proofs.Math.Option.{none};
ghost use Rattle.rules.specs.Levels as levels;
ghost use Rattle.rules.specs.Checks.{named};
ghost use Rattle.rules.specs.Lent.{number_of, counted_to, ledger_to, failing_to};
ghost use Rattle.pins.specs.Values.{level_of};
ghost use Rattle.ledger.specs.Values.{ledger_of, refusal_of};
ghost use Rattle.ledger.specs.Parts.{beat_as, Checked};

use crate::account::{Account, First};
use crate::{Ledger, Refusal};
use pins::Level;

// Whether the cycles at this level are not counted.
#[tactic(auto, unfolding(rules::specs::Levels::stopped, pins::specs::Values::level_of))]
pub fn stopped(level: Level) -> bool
    ensures { result ≡ levels.stopped (level_of level) }
{
    matches!(level, Level::SelfRefresh | Level::Deep)
}

// The number of the cycle where a ledger stands, whatever it says it skipped.
#[tactic(auto, unfolding(rules::specs::Lent::number_of, crate::specs::Values::ledger_of))]
pub fn number_of(ledger: Ledger) -> u32
    ensures { result ≡ number_of (ledger_of ledger) }
{
    ledger.at.saturating_sub(ledger.skipped)
}

// How many of the cycles up to this one count.
#[tactic(auto, unfolding(rules::specs::Lent::counted_to, crate::specs::Values::ledger_of))]
fn counted_to(ledger: Ledger, to: u32) -> u32
    ensures { result ≡ counted_to (ledger_of ledger) to }
{
    if stopped(ledger.level) {
        0
    } else {
        to.saturating_sub(ledger.at)
    }
}

impl Account {
    // 19 and 20 at the cycles after the ledger's and below this one.
    fn idle_below(self, until: u64) -> Result<(), Refusal>
        ensures { refusal_of result ≡ named 11 (failing_to (beat_as self.beat) (ledger_of self.ledger) until) }
    {
        match self.first_failing() {
            Some(First { rule, cycle }) if cycle < until => Err(Refusal::Overdue { rule, cycle }),
            _ => Ok(()),
        }
    }

    // The ledger as after a cycle below which neither fails.
    fn moved_to(self, to: u32) -> Ledger
        requires { failing_to (beat_as self.beat) (ledger_of self.ledger) to ≡ none }
        ensures { ledger_of result ≡ ledger_to (beat_as self.beat) (ledger_of self.ledger) to }
    {
        let n = number_of(self.ledger);
        let m = n + counted_to(self.ledger, to);
        Ledger {
            at: to,
            owed: self.ledger.owed + (self.beat.fallen(m) - self.beat.fallen(n)) as u8,
            skipped: to.saturating_sub(m),
            ..self.ledger
        }
    }

    // The ledger as after a cycle, where 19 and 20 are asked below `until`: that cycle, or the next one.
    pub fn reach(self, to: u32, until: u64) -> Result<Ledger, Refusal>
        requires { to ≤ until }
        ensures { Checked (named 11 (failing_to (beat_as self.beat) (ledger_of self.ledger) until)) (λ then. ledger_of then ≡ ledger_to (beat_as self.beat) (ledger_of self.ledger) to) result }
    {
        self.idle_below(until)?;
        Ok(self.moved_to(to))
    }
}
