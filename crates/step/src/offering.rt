// An entry, of pins or a temperature, offered to a record.
ghost use Rattle.std.specs.Prelude.{◌≡◌};
ghost use Rattle.rules.specs.Entries as entries;
ghost use Rattle.rules.specs.Entries.{entry, sensing, mr4_of};
ghost use Rattle.rules.specs.Lent.{number_of, pace_by, step_refusal};
ghost use Rattle.card.specs.Values.{card_of, clocks_of};
ghost use Rattle.pins.specs.Values.{read_of, whose_of};
ghost use Rattle.ledger.specs.Values.{ledger_of, pace_of};
ghost use Rattle.ledger.specs.Values as paid;
ghost use Rattle.bank.specs.Values.{last_of, share_of, bus_look, lent_of};
ghost use Rattle.step.specs.Values.{refusal_of, Left};
ghost use Rattle.step.specs.Parts.{ruled_refusal, read_on, Ruled, stepped_in, OfferedTo};

use crate::{Refusal, Stepped, account, delays, reading};
use bank::{Bus, Ledgers, Once, Record, Share};
use card::{Card, Delays};
use ledger::Pace;
use pins::{Read, Whose};

// What these pins are to the part that they come to.
pub fn read_for(rec: Record, whose: Whose, pins: u32) -> Read
    ensures { read_of result ≡ read_on (lent_of rec) (whose_of whose) (entries.pins pins) }
{
    let share = bank::own(rec, whose);
    pins::read_pins(rec.card.sleeps, rec.card.paired, share.ledger.level, pins)
}

// What a value of MR4 is to the part that judges it. Its one call is another than that of `read_for`: a closure for it would be no shorter.
fn sensed_for(rec: Record, whose: Whose, mr4: u8) -> Read
    ensures { read_of result ≡ read_on (lent_of rec) (whose_of whose) (entries.mr4 mr4) }
{
    let share = bank::own(rec, whose);
    pins::read_mr4(rec.card.sleeps, rec.card.paired, share.ledger.level, mr4)
}

// Of what the account tells, 13, 5, 11 below the stamp; then 6 to 10, 16, 24 and 26, of the part that the entry comes to; 11 at the stamp. Of the other part it
// knows the bus alone. These go one by one: a run over one part (`turns.rt`) has no whole record to hand.
pub fn ruled(
    card: Card,
    last: Once,
    share: Share,
    theirs: Bus,
    delays: Delays,
    read: Read,
    stamp: u32,
    told: Result<(), ledger::Refusal>,
) -> Result<(), Refusal>
    ensures { refusal_of result ≡ ruled_refusal (card_of card) (last_of last) (clocks_of delays) (share_of share) (bus_look theirs) (read_of read) stamp (paid.refusal_of told) }
{
    account::opening(account::rises(last, stamp), told, stamp)?;
    reading::reading(card, share.banks.opened, share.counter, read)?;
    delays::delayed(
        share,
        theirs,
        delays,
        pins::judged(read),
        pins::move_of(read),
        stamp,
    )?;
    told?;
    Ok(())
}

// An entry of this part, by the ledgers of both; where it is taken, the ledgers at the stamp.
pub fn rule_on(
    rec: Record,
    delays: Delays,
    whose: Whose,
    read: Read,
    stamp: u32,
) -> Result<Ledgers, Refusal>
    ensures { Ruled (clocks_of delays) (lent_of rec) (whose_of whose) (read_of read) stamp result }
{
    let share = bank::own(rec, whose);
    let effect = account::effect_of(read, share.counter);
    let paid = bank::entered(
        bank::ledgers_of(rec),
        rec.pace,
        rec.card,
        whose,
        stamp,
        effect,
    );
    let theirs = bank::theirs(rec, whose);
    ruled(
        rec.card,
        rec.last,
        share,
        theirs,
        delays,
        read,
        stamp,
        paid.answer,
    )?;
    Ok(paid.ledgers)
}

// The pace from this entry on: a temperature spaces the dues anew, by the number at which the first part's ledger stands.
#[tactic(auto, using(crate::proofs::Paced::not_sensed), unfolding(rules::specs::Lent::pace_by, rules::specs::Entries::mr4_of, pins::specs::Values::read_of))]
fn pace_after(pace: Pace, card: Card, read: Read, ledgers: Ledgers) -> Pace
    ensures { pace_of result ≡ pace_by (card_of card) (number_of (ledger_of ledgers.first)) (mr4_of (read_of read)) (pace_of pace) }
{
    match read {
        Read::Sensed(mr4) => { ledger::respaced(pace, card, ledger::number_of(ledgers.first), mr4) }
        _ => pace,
    }
}

// An entry of this part that is read so, to any record: the record then, where it is taken. Delays go by the temperature in force.
fn taken(rec: Record, stamp: u32, whose: Whose, read: Read) -> Result<Record, Refusal>
    ensures { OfferedTo rec stamp (whose_of whose) (read_of read) (stepped_in rec result) }
{
    if !bank::good(rec) {
        return Err(Refusal::BadRecord);
    }
    let delays = card::delays_at(rec.card, rec.pace.mr4);
    let ledgers = rule_on(rec, delays, whose, read, stamp)?;
    Ok(bank::after(
        rec,
        stamp,
        whose,
        pins::recorded(read),
        pins::move_of(read),
        ledgers,
        pace_after(rec.pace, rec.card, read, ledgers),
    ))
}

impl Stepped {
    // The record changes where the entry is taken, and only there. As `ledger`'s own for its `After`: another type, in another crate.
    #[tactic(auto, unfolding(crate::specs::Parts::stepped_in))]
    fn of(rec: Record, taken: Result<Record, Refusal>) -> Stepped
        ensures { result ≡ stepped_in rec taken }
    {
        match taken {
            Ok(next) => Stepped {
                rec: next,
                answer: Ok(()),
            },
            Err(refusal) => Stepped {
                rec,
                answer: Err(refusal),
            },
        }
    }
}

// Pins, to any record.
pub fn step(rec: Record, stamp: u32, pins: u32) -> Stepped
    ensures { Left (step_refusal (lent_of rec) (entry stamp pins)) rec (entry stamp pins) result }
{
    let whose = pins::whose_pins(rec.card.paired, pins);
    let read = read_for(rec, whose, pins);
    Stepped::of(rec, taken(rec, stamp, whose, read))
}

// A value of MR4 that was read back, to any record.
pub fn sense(rec: Record, stamp: u32, mr4: u8) -> Stepped
    ensures { Left (step_refusal (lent_of rec) (sensing stamp mr4)) rec (sensing stamp mr4) result }
{
    let whose = pins::whose_mr4(rec.card.paired);
    let read = sensed_for(rec, whose, mr4);
    Stepped::of(rec, taken(rec, stamp, whose, read))
}
