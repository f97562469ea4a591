// A ledger taken through an entry's own cycle.
ghost use Rattle.std.specs.Prelude.{◌≡◌, ◌-◌, cond, ◌||◌};
ghost use Rattle.rules.specs.Checks.{named};
ghost use Rattle.rules.specs.Folds.{or_else};
ghost use Rattle.rules.specs.Lent.{number_of, failing_to, failing_of};
ghost use Rattle.rules.specs.Lent as lent;
ghost use Rattle.ledger.specs.Values.{ledger_of, effect_of, refusal_of};
ghost use Rattle.ledger.specs.Parts.{beat_as, Checked, changed_by};

use crate::account::Account;
use crate::beat::Beat;
use crate::{Effect, Ledger, Refusal, moving};

// A counted refresh takes 1, not below -8. `counted` is what the entry is, no choice of a step.
fn owed_after(owed: u8, counted: bool) -> u8
    ensures { result ≡ cond counted (owed - 1) owed }
{
    if counted {
        owed.saturating_sub(1)
    } else {
        owed
    }
}

// Where the gap counts from: a counted refresh and a temperature begin it anew where the ledger stands.
fn since_after(ledger: Ledger, effect: Effect) -> u32
    ensures { result ≡ cond (effect.counted || effect.sensed) (number_of (ledger_of ledger)) ledger.since }
{
    if effect.counted || effect.sensed {
        moving::number_of(ledger)
    } else {
        ledger.since
    }
}

// What an entry does where the ledger stands.
#[tactic(auto, using(crate::proofs::Enters::changed_so))]
fn changed(ledger: Ledger, effect: Effect) -> Ledger
    ensures { ledger_of result ≡ changed_by (effect_of effect) (ledger_of ledger) }
{
    Ledger {
        owed: owed_after(ledger.owed, effect.counted),
        since: since_after(ledger, effect),
        level: pins::level_after(effect.moved, ledger.level),
        ..ledger
    }
}

// 19 and 20 where a ledger stands.
fn kept(here: Ledger, beat: Beat) -> Result<(), Refusal>
    ensures { refusal_of result ≡ named 11 (failing_of (beat_as beat) (ledger_of here)) }
{
    let cycle = u64::from(here.at);
    if here.owed > 16 {
        return Err(Refusal::Overdue { rule: 19, cycle });
    }
    if u64::from(here.since) + 9 * beat.span < u64::from(moving::number_of(here)) {
        return Err(Refusal::Overdue { rule: 20, cycle });
    }
    Ok(())
}

impl Account {
    // 19 and 20 below the stamp, and at it behind what the entry does.
    pub fn enter(self, stamp: u32, effect: Effect) -> Result<Ledger, Refusal>
        ensures { Checked (or_else (named 11 (failing_to (beat_as self.beat) (ledger_of self.ledger) stamp)) (named 11 (failing_of (beat_as self.beat) (lent.entered (effect_of effect) (beat_as self.beat) (ledger_of self.ledger) stamp)))) (λ then. ledger_of then ≡ lent.entered (effect_of effect) (beat_as self.beat) (ledger_of self.ledger) stamp) result }
    {
        let there = self.reach(stamp, u64::from(stamp))?;
        let here = changed(there, effect);
        kept(here, self.beat)?;
        Ok(here)
    }
}
