// A value put at a place of a record.
use crate::calls::{Latest, Noting, OnCard, OnLedger, OnModes, OnShare, Part, Place};
use bank::{Each, Noted, NotedEach, Once, Record, Share};
use card::{Card, Femtoseconds, Modes};
use ledger::Ledger;

// What stands beside a flag that says that there is no MR1: it would be refused on a card, and is listed with either OP4.
const NO_MR1: u8 = 0xc7;

fn flagged(mr1: Option<u8>) -> (bool, u8) {
    (mr1.is_some(), mr1.unwrap_or(NO_MR1))
}

fn put_on_card(card: &mut Card, on: OnCard) {
    match on {
        OnCard::Period(period) => card.period = Femtoseconds(period),
        OnCard::Mr2(mr2) => card.mr2 = mr2,
        OnCard::Groups(groups) => card.groups = groups,
        OnCard::Trefi(trefi) => card.trefi = trefi,
        OnCard::Duration(timing, ps) => card.durations[timing as usize] = ps,
        OnCard::Floor(timing, clocks) => card.floors[timing as usize] = clocks,
        OnCard::Sleeps(sleeps) => card.sleeps = sleeps,
        OnCard::Mr1(mr1) => (card.programmed, card.mr1) = flagged(mr1),
        OnCard::Paired(paired) => card.paired = paired,
        OnCard::Gap(gap) => card.gap = gap,
        OnCard::Raise(raise) => card.raise = raise,
    }
}

fn put_on_modes(modes: &mut Modes, on: OnModes) {
    match on {
        OnModes::Mr2(mr2) => modes.mr2 = mr2,
        OnModes::Mr1(mr1) => (modes.programmed, modes.mr1) = flagged(mr1),
    }
}

fn put_on_ledger(ledger: &mut Ledger, on: OnLedger) {
    match on {
        OnLedger::At(at) => ledger.at = at,
        OnLedger::Owed(owed) => ledger.owed = owed,
        OnLedger::Since(since) => ledger.since = since,
        OnLedger::Skipped(skipped) => ledger.skipped = skipped,
        OnLedger::Level(level) => ledger.level = level,
    }
}

// The mode registers beside it stay.
fn see(noted: &mut Noted, at: u32) {
    noted.seen = true;
    noted.at = at;
}

// Here and in `see_first_noted` the arrays are those of two types, which a record lends.
fn see_first(each: &mut Each, at: u32) {
    each.seen[0] = true;
    each.at[0] = at;
}

fn see_first_noted(each: &mut NotedEach, at: u32) {
    each.seen[0] = true;
    each.at[0] = at;
}

fn put_stamp(share: &mut Share, latest: Latest, at: u32) {
    match latest {
        Latest::Mrw => share.latest.mrw = bank::once_at(at),
        Latest::Mrr => share.latest.mrr = bank::once_at(at),
        Latest::Refab => share.latest.refab = bank::once_at(at),
        Latest::Refpb => share.latest.refpb = bank::once_at(at),
        Latest::Prea => share.latest.prea = bank::once_at(at),
        Latest::Four => {
            share.four.count = 1;
            share.four.at[0] = at;
        }
        Latest::Rd => share.bus.rd = bank::once_at(at),
        Latest::Wr => see(&mut share.bus.wr, at),
        Latest::Turn => see(&mut share.bus.turn, at),
        Latest::Fall => share.moves.fall = bank::once_at(at),
        Latest::PowerExit => share.moves.power_exit = bank::once_at(at),
        Latest::SelfExit => share.moves.self_exit = bank::once_at(at),
        Latest::Refpb0 => see_first(&mut share.banks.refpb, at),
        Latest::Pre0 => see_first(&mut share.banks.pre, at),
        Latest::Act0 => see_first(&mut share.banks.act, at),
        Latest::Rd0 => see_first(&mut share.banks.rd, at),
        Latest::Rda0 => see_first(&mut share.banks.rda, at),
        Latest::Wr0 => see_first_noted(&mut share.banks.wr, at),
        Latest::Wra0 => see_first_noted(&mut share.banks.wra, at),
    }
}

fn put_note(share: &mut Share, noting: Noting, on: OnModes) {
    match noting {
        Noting::Wr => put_on_modes(&mut share.bus.wr.modes, on),
        Noting::Turn => put_on_modes(&mut share.bus.turn.modes, on),
        Noting::Wr0 => put_on_modes(&mut share.banks.wr.modes[0], on),
        Noting::Wra0 => put_on_modes(&mut share.banks.wra.modes[0], on),
    }
}

fn put_on_share(share: &mut Share, on: OnShare) {
    match on {
        OnShare::Mode(mode) => put_on_modes(&mut share.modes, mode),
        OnShare::Counter(counter) => share.counter = counter,
        OnShare::Ledger(ledger) => put_on_ledger(&mut share.ledger, ledger),
        OnShare::FourCount(count) => share.four.count = count,
        OnShare::At(latest, at) => put_stamp(share, latest, at),
        OnShare::Noted(noting, mode) => put_note(share, noting, mode),
    }
}

pub fn put(rec: &mut Record, part: Part, place: Place) {
    match place {
        Place::Card(on) => put_on_card(&mut rec.card, on),
        Place::Last(at) => {
            rec.last = Once {
                seen: at.is_some(),
                at: at.unwrap_or(0),
            }
        }
        Place::Next(next) => rec.pace.next = next,
        Place::SensedMr4(mr4) => rec.pace.mr4 = mr4,
        Place::Share(on) => match part {
            Part::First => put_on_share(&mut rec.first, on),
            Part::Second => put_on_share(&mut rec.second, on),
        },
    }
}
