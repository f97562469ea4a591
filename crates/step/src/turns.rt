// A run over a record of one part: as many entries as the quick run takes, then one by the table, and so on; and a run over any record.
ghost use Rattle.std.specs.Prelude.{◌≡◌};
ghost use Rattle.step.specs.Runs.{run_of};
ghost use Rattle.step.specs.Single.{Ready, RunsTo, TakesOne};

use crate::Ran;
use crate::account::effect_of;
use crate::offering::ruled;
use crate::pairs::pair_run;
use crate::running::quick_run;
use crate::single::Single;
use bank::Record;
use card::Delays;

// One entry by the table, if it is there and is taken: as `one_entry` of `pairs.rt`, but over a `Single`, with one ledger and
// no other bus. One function over both would want a trait of its own for these two alone.
fn by_table(rec: Single, delays: Delays, bytes: &[u8]) -> Option<Ran<Single>>
    requires { Ready rec delays }
    ensures { TakesOne rec bytes.now result }
{
    let front = pins::entry_at(bytes, 0)?;
    let share = rec.share;
    let read = pins::read_pins(rec.card.sleeps, false, share.ledger.level, front.pins);
    let effect = effect_of(read, share.counter);
    let paid = ledger::entered(share.ledger, rec.pace, rec.card, front.stamp, effect);
    let theirs = bank::idle_bus();
    ruled(
        rec.card,
        rec.last,
        share,
        theirs,
        delays,
        read,
        front.stamp,
        paid.answer,
    )
    .ok()?;
    let command = pins::recorded(read);
    let moved = pins::move_of(read);
    let next = Single {
        last: bank::once_at(front.stamp),
        share: bank::share_after(share, front.stamp, command, moved, paid.ledger),
        ..rec
    };
    Some(Ran::entry(next, command, share.counter))
}

// Turn by turn.
fn single_run(rec: Single, delays: Delays, bytes: &[u8], most: usize) -> Ran<Single>
    requires { Ready rec delays }
    ensures { RunsTo most rec bytes.now result }
{
    let mut ran = Ran::start(rec);
    loop {
        let quick = quick_run(ran.rec, delays, &bytes[ran.used..], most - ran.used / 10);
        ran = ran.then(quick);
        if most <= ran.used / 10 {
            return ran;
        }
        let Some(one) = by_table(ran.rec, delays, &bytes[ran.used..]) else {
            return ran;
        };
        ran = ran.then(one);
    }
}

// At most so many entries of pins, up to the first that a step refuses. 13 is asked once, and the delays are picked once: an entry that is taken keeps a sound record sound, and
// pins leave the temperature as it is.
pub fn run(rec: Record, bytes: &[u8], most: usize) -> Ran<Record>
    ensures { result ≡ run_of most rec bytes.now }
{
    if !bank::good(rec) {
        return Ran::start(rec);
    }
    let delays = card::delays_at(rec.card, rec.pace.mr4);
    if rec.card.paired {
        return pair_run(rec, delays, bytes, most);
    }
    let ran = single_run(Single::of(rec), delays, bytes, most);
    Ran {
        rec: ran.rec.with(rec.second),
        used: ran.used,
        commands: ran.commands,
        refreshes: ran.refreshes,
    }
}
