// A run over a record of two parts: one entry after the other by the table.
ghost use Rattle.std.specs.Prelude.{◌≡◌};
ghost use Rattle.step.specs.Runs.{run_of};
ghost use Rattle.step.specs.Parts.{Prepared, OneOn};

use crate::Ran;
use crate::offering::{read_for, rule_on};
use bank::Record;
use card::Delays;

// One entry, to any record, if it is there and is taken.
fn one_entry(rec: Record, delays: Delays, bytes: &[u8]) -> Option<Ran<Record>>
    requires { Prepared rec delays }
    ensures { OneOn rec delays bytes.now result }
{
    let front = pins::entry_at(bytes, 0)?;
    let whose = pins::whose_pins(rec.card.paired, front.pins);
    let read = read_for(rec, whose, front.pins);
    let ledgers = rule_on(rec, delays, whose, read, front.stamp).ok()?;
    let command = pins::recorded(read);
    let next = bank::after(
        rec,
        front.stamp,
        whose,
        command,
        pins::move_of(read),
        ledgers,
        rec.pace,
    );
    Some(Ran::entry(next, command, bank::own(rec, whose).counter))
}

pub fn pair_run(rec: Record, delays: Delays, bytes: &[u8], most: usize) -> Ran<Record>
    requires { Prepared rec delays }
    ensures { result ≡ run_of most rec bytes.now }
{
    let mut ran = Ran::start(rec);
    for _ in 0..most {
        let Some(one) = one_entry(ran.rec, delays, &bytes[ran.used..]) else {
            return ran;
        };
        ran = ran.then(one);
    }
    ran
}
