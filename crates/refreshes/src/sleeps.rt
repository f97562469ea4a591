// Ledgers at a lower level (document 02, One), and hostile ones.
use crate::refreshes;
use crate::show::{comes, enters, first, lent, moves, stands};
use ledger::Ledger;
use pins::{Level, Move};

// As awake.
fn power_down(rt: &impl Print) {
    let down = enters(
        rt,
        stands(0, 8, 0),
        10,
        false,
        Move::Falls(Level::PowerDown),
    );
    moves(rt, down, 3120);
    moves(rt, down, 28079);
    moves(rt, down, 28080);
    enters(rt, down, 28079, false, Move::Stays);
    enters(rt, down, 28080, false, Move::Rises(Level::PowerDown));
    enters(rt, down, 28081, false, Move::Stays);
}

// The fall's own cycle counts; those behind it do not, up to and with the exit's own.
fn falls_at(rt: &impl Print, stamp: u32) {
    let asleep = enters(
        rt,
        stands(0, 8, 0),
        stamp,
        false,
        Move::Falls(Level::SelfRefresh),
    );
    moves(rt, asleep, 3120);
    moves(rt, asleep, 4294967295);
    let still = enters(rt, asleep, 3500, false, Move::Stays);
    let awake = enters(rt, still, 4000, false, Move::Rises(Level::SelfRefresh));
    moves(rt, awake, 4000);
    moves(rt, awake, 4001);
    moves(rt, awake, 7120);
}

fn falls_full(rt: &impl Print, full: Ledger) {
    enters(rt, full, 28080, false, Move::Falls(Level::SelfRefresh));
    let asleep = enters(rt, full, 28079, false, Move::Falls(Level::SelfRefresh));
    let awake = enters(
        rt,
        moves(rt, asleep, 40000),
        50000,
        false,
        Move::Rises(Level::SelfRefresh),
    );
    moves(rt, awake, 50000);
    moves(rt, awake, 50001);
    enters(rt, awake, 50001, false, Move::Falls(Level::SelfRefresh));
    enters(rt, awake, 50001, true, Move::Stays);
}

fn falls_early(rt: &impl Print, eight: Ledger) {
    let awake = comes(
        comes(eight, 832, Move::Falls(Level::SelfRefresh)),
        100832,
        Move::Rises(Level::SelfRefresh),
    );
    moves(rt, awake, 128808);
    moves(rt, awake, 128809);
    moves(rt, enters(rt, awake, 100944, true, Move::Stays), 129025);
}

fn deep_power_down(rt: &impl Print) {
    let deep = enters(rt, stands(0, 8, 0), 3120, false, Move::Falls(Level::Deep));
    moves(rt, deep, 4294967295);
    enters(rt, deep, 3120, false, Move::Stays);
}

// More skipped than there was; a gap that counts from above the number.
fn odd_ones(rt: &impl Print) {
    let odd = lent(5, 8, 0, 9, Level::Awake);
    moves(rt, odd, 5);
    moves(rt, odd, 3124);
    moves(rt, odd, 3125);
    enters(rt, odd, 5, true, Move::Stays);
    moves(rt, lent(5, 8, 1, 9, Level::Awake), 6);
    moves(rt, lent(10, 8, 6, 5, Level::Awake), 12);
    moves(rt, lent(10, 8, 6, 5, Level::SelfRefresh), 12);
    moves(rt, lent(10, 8, 5, 5, Level::SelfRefresh), 12);
    moves(rt, lent(10, 8, 5, 5, Level::SelfRefresh), 9);
    moves(rt, lent(10, 17, 5, 5, Level::Deep), 12);
}

// A gap that is too long already is looked at by an entry, and not by a move in self-refresh.
fn late_ones(rt: &impl Print) {
    let late = lent(30000, 8, 0, 0, Level::SelfRefresh);
    moves(rt, late, 4294967295);
    enters(rt, late, 30000, false, Move::Stays);
    enters(rt, late, 30001, false, Move::Rises(Level::SelfRefresh));
    enters(rt, late, 30001, true, Move::Rises(Level::SelfRefresh));
    moves(rt, lent(30000, 8, 0, 2000, Level::Awake), 30080);
    moves(rt, lent(30000, 8, 0, 2000, Level::PowerDown), 30081);
    enters(
        rt,
        lent(100, 11, 0, 50, Level::SelfRefresh),
        200,
        true,
        Move::Falls(Level::Deep),
    );
}

pub fn all(rt: &impl Print) {
    power_down(rt);
    falls_at(rt, 3119);
    falls_at(rt, 3120);
    falls_full(
        rt,
        ledger::moved(stands(0, 8, 0), first(), card::bench(), 28079).ledger,
    );
    falls_early(rt, refreshes(stands(0, 8, 0), 0, 8));
    deep_power_down(rt);
    odd_ones(rt);
    late_ones(rt);
}
