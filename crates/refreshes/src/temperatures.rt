// Temperatures (document 02, Eleven): the account under every MR4 code, next dues as they may be lent, and dues spaced anew.
ghost use Rattle.std.specs.Prelude.{◌<◌};

use crate::show::{
    comes, effect, enters_at, first, lent, lent_pace, moves, moves_at, show, show_number,
    show_pace, stands,
};
use card::{Card, Femtoseconds};
use ledger::{Effect, Ledger, Pace};
use pins::{Level, Move};

#[derive(Clone, Copy)]
pub struct Stood {
    ledger: Ledger,
    pace: Pace,
}

fn temperature() -> Effect {
    effect(false, true, Move::Stays)
}

fn refresh() -> Effect {
    effect(true, false, Move::Stays)
}

fn no_effect() -> Effect {
    effect(false, false, Move::Stays)
}

// A field at this cycle, and what the dues and the gap are from there on.
fn senses(rt: &impl Print, from: Ledger, pace: Pace, stamp: u32, mr4: u8) -> Stood {
    let ledger = enters_at(rt, from, pace, stamp, temperature());
    let anew = show_pace(
        rt,
        ledger::respaced(pace, card::bench(), ledger::number_of(ledger), mr4),
    );
    show_number(rt, ledger::deadline(ledger, anew, card::bench()));
    Stood { ledger, pace: anew }
}

// The field's own cycle is a due at 3120.
fn sensed(rt: &impl Print, stamp: u32, mr4: u8) {
    let stood = senses(rt, stands(0, 8, 0), first(), stamp, mr4);
    moves_at(rt, stood.ledger, stood.pace, 3899);
    moves_at(rt, stood.ledger, stood.pace, 3900);
    moves_at(rt, stood.ledger, stood.pace, 6240);
    moves_at(rt, stood.ledger, stood.pace, 4294967295);
}

fn under(rt: &impl Print, mr4: u8) {
    let pace = lent_pace(3120, mr4);
    moves_at(rt, stands(0, 8, 0), pace, 4294967295);
    moves_at(rt, stands(0, 0, 0), pace, 4294967295);
    enters_at(rt, stands(0, 8, 0), pace, 9360, refresh());
    sensed(rt, 1000, mr4);
    sensed(rt, 3119, mr4);
    sensed(rt, 3120, mr4);
    sensed(rt, 3121, mr4);
}

// A field at the cycle where the gap would be too long; it takes nothing from the ledger, and a refresh besides does.
fn saves(rt: &impl Print) {
    enters_at(rt, stands(0, 0, 0), first(), 28081, no_effect());
    enters_at(rt, stands(0, 0, 0), first(), 28081, temperature());
    enters_at(rt, stands(0, 0, 0), first(), 28082, temperature());
    let full = moves(rt, stands(0, 8, 0), 28079);
    enters_at(rt, full, first(), 28080, temperature());
    enters_at(rt, full, first(), 28080, effect(true, true, Move::Stays));
}

// In counted cycles: in self-refresh the number stays, and the old next due is still ahead.
fn asleep(rt: &impl Print, stamp: u32, mr4: u8) {
    let deep = comes(stands(0, 8, 0), stamp, Move::Falls(Level::SelfRefresh));
    let stood = senses(rt, deep, first(), 5000, mr4);
    let awake = enters_at(
        rt,
        stood.ledger,
        stood.pace,
        6000,
        effect(false, false, Move::Rises(Level::SelfRefresh)),
    );
    moves_at(rt, awake, stood.pace, 6001);
    moves_at(rt, awake, stood.pace, 4294967295);
}

fn down(rt: &impl Print) {
    let low = comes(stands(0, 8, 0), 10, Move::Falls(Level::PowerDown));
    let stood = senses(rt, low, first(), 3120, 5);
    moves_at(rt, stood.ledger, stood.pace, 3900);
    moves_at(rt, stood.ledger, stood.pace, 4294967295);
}

// A next due of any kind, with a ledger at number 10000.
fn next_is(rt: &impl Print, next: u64, mr4: u8) {
    let pace = lent_pace(next, mr4);
    let ledger = stands(10000, 8, 9000);
    moves_at(rt, ledger, pace, 10000);
    moves_at(rt, ledger, pace, 10001);
    moves_at(rt, ledger, pace, 10780);
    moves_at(rt, ledger, pace, 4294967295);
    enters_at(rt, ledger, pace, 10001, refresh());
    enters_at(rt, ledger, pace, 17000, no_effect());
    show_number(rt, ledger::deadline(ledger, pace, card::bench()));
    show_pace(rt, ledger::respaced(pace, card::bench(), 10000, 1));
    show_pace(rt, ledger::respaced(pace, card::bench(), 10000, 6));
}

fn next_of(rt: &impl Print, mr4: u8) {
    for next in [
        0,
        1,
        9999,
        10000,
        10001,
        16021,
        16022,
        4294967295,
        4294967296,
        1099511627776,
        18446744073709551614,
        18446744073709551615,
    ] {
        next_is(rt, next, mr4);
    }
}

// Of ledgers that 13 refuses, and of those whose cycles are not counted, there is no deadline.
fn deadlines(rt: &impl Print) {
    show_number(
        rt,
        ledger::deadline(stands(5, 17, 0), first(), card::bench()),
    );
    show_number(
        rt,
        ledger::deadline(stands(5, 8, 6), first(), card::bench()),
    );
    show_number(
        rt,
        ledger::deadline(lent(0, 8, 0, 0, Level::Deep), first(), card::bench()),
    );
    show_number(
        rt,
        ledger::deadline(
            stands(4294967295, 16, 4294967295),
            lent_pace(18446744073709551615, 1),
            card::bench(),
        ),
    );
    show_number(
        rt,
        ledger::deadline(
            stands(4294967295, 0, 4294967295),
            lent_pace(0, 1),
            card::bench(),
        ),
    );
}

// A quarter of tREFI is less than a period: one cycle.
fn each_cycle(rt: &impl Print) {
    let slow = Card {
        period: Femtoseconds(100000000),
        trefi: 100000,
        ..card::bench()
    };
    show_pace(rt, ledger::first_pace(slow));
    let pace = show_pace(rt, ledger::respaced(lent_pace(100, 3), slow, 4, 5));
    show(rt, ledger::moved(stands(4, 8, 4), pace, slow, 12));
    show(rt, ledger::moved(stands(4, 8, 4), pace, slow, 13));
    show(rt, ledger::moved(stands(4, 0, 4), pace, slow, 14));
    show(
        rt,
        ledger::entered(stands(4, 8, 4), pace, slow, 13, refresh()),
    );
}

// The pace of a card out of range.
fn spaced(rt: &impl Print, card: Card, next: u64, n: u32) {
    show_pace(rt, ledger::respaced(lent_pace(next, 1), card, n, 1));
    show_pace(rt, ledger::respaced(lent_pace(next, 6), card, n, 2));
    show_pace(rt, ledger::respaced(lent_pace(next, 255), card, n, 0));
}

fn odd_cards(rt: &impl Print) {
    let odd = Card {
        period: Femtoseconds(1),
        trefi: 4294967295,
        ..card::bench()
    };
    show_pace(rt, ledger::first_pace(odd));
    spaced(rt, odd, 0, 0);
    spaced(rt, odd, 0, 4294967295);
    spaced(rt, odd, 4294967295, 4294967295);
    spaced(rt, odd, 18446744073709551615, 0);
    spaced(rt, odd, 18446744073709551615, 4294967295);
}

// Every 700 cycles two refreshes and then a field, of one code after the other.
fn turn(rt: &impl Print, from: Stood, i: u32) -> Stood
    requires { i < 60 }
{
    let stamp = 700 * (i + 1);
    let Stood { ledger, pace } = from;
    if i % 3 == 2 {
        senses(rt, ledger, pace, stamp, (i / 3 % 8) as u8)
    } else {
        let ledger = enters_at(rt, ledger, pace, stamp, refresh());
        Stood { ledger, pace }
    }
}

fn turns(rt: &impl Print, from: Stood) {
    let mut stood = from;
    for i in 0..60u32 {
        stood = turn(rt, stood, i);
    }
}

fn every_code(rt: &impl Print) {
    for mr4 in [0, 1, 2, 3, 4, 5, 6, 7, 0b11111001] {
        under(rt, mr4);
    }
}

pub fn all(rt: &impl Print) {
    every_code(rt);
    saves(rt);
    asleep(rt, 3119, 5);
    asleep(rt, 3120, 1);
    asleep(rt, 3120, 4);
    down(rt);
    next_of(rt, 1);
    next_of(rt, 3);
    next_of(rt, 5);
    deadlines(rt);
    each_cycle(rt);
    odd_cards(rt);
    turns(
        rt,
        Stood {
            ledger: stands(0, 8, 0),
            pace: first(),
        },
    );
}
