// The refresh cases of document 01, refusals, sleeps, temperatures, periods, and moves over all 2^32 cycles. A line each: the refusal's number, rule and cycle, then
// the ledger's cycle, number with 8 added, where the gap counts from, cycles not counted, and level. A line of two numbers is a pace, its next due and MR4,
// and a line of one a deadline. The file stdout is worked out by expected.py, due by due.
#![tactic(auto)]

ghost use Rattle.std.specs.Prelude.{◌+◌, ◌≤◌, ◌<◌, ◌^◌};

use card::{Card, Femtoseconds};
use ledger::Ledger;
use pins::{Level, Move};
use show::{comes, enters, lent, moves, refreshed, stands};

mod periods;
mod show;
mod sleeps;
mod temperatures;

// Counted refreshes from the ledger's cycle on, 104 apart.
fn refreshes(from: Ledger, first: u32, count: u32) -> Ledger
    requires { count ≤ 9 }
{
    let mut ledger = from;
    for i in 0..count {
        if let Some(stamp) = first.checked_add(i * 104) {
            ledger = refreshed(ledger, stamp);
        }
    }
    ledger
}

fn paper(rt: &impl Print) {
    let fresh = stands(0, 8, 0);
    moves(rt, fresh, 28079);
    moves(rt, fresh, 28080);
    let eight = refreshes(fresh, 0, 8);
    moves(rt, eight, 28808);
    moves(rt, eight, 28809);
    let nine = refreshes(fresh, 0, 9);
    moves(rt, nine, 832);
    moves(rt, nine, 28912);
    moves(rt, nine, 28913);
}

// A due at the cycle where the ledger stands is not added again; a refresh at a cycle that would fail pays first.
fn own_cycles(rt: &impl Print) {
    let due = moves(rt, stands(0, 8, 0), 3120);
    enters(rt, due, 3120, false, Move::Stays);
    enters(rt, due, 3120, true, Move::Stays);
    enters(rt, stands(0, 8, 0), 3120, false, Move::Stays);
    let full = moves(rt, stands(0, 8, 0), 28079);
    enters(rt, full, 28080, true, Move::Stays);
    enters(rt, full, 28080, false, Move::Stays);
    enters(rt, full, 28081, true, Move::Stays);
    enters(rt, stands(0, 0, 0), 28080, false, Move::Stays);
    enters(rt, stands(0, 0, 0), 28081, false, Move::Stays);
    enters(rt, stands(0, 0, 0), 28081, true, Move::Stays);
}

fn refusals(rt: &impl Print) {
    moves(rt, stands(5, 17, 0), 9);
    moves(rt, stands(5, 8, 6), 4);
    moves(rt, stands(5, 8, 5), 4);
    enters(rt, stands(5, 255, 0), 9, true, Move::Stays);
    enters(rt, stands(5, 8, 5), 4, true, Move::Stays);
    let bad = Card {
        period: Femtoseconds(0),
        ..card::bench()
    };
    show::show(rt, ledger::moved(stands(0, 8, 0), show::first(), bad, 1));
    show::show(
        rt,
        ledger::entered(
            stands(0, 8, 0),
            show::first(),
            bad,
            1,
            show::effect(false, false, Move::Stays),
        ),
    );
}

// Eight intervals on, nine refreshes there, and behind them a self-refresh of so many cycles, or none.
fn round(ledger: Ledger, to: u64, asleep: u64) -> Ledger
    requires { to + (833 + asleep) < 2 ^ 32 }
{
    let stamp = to as u32;
    let there = ledger::moved(ledger, show::first(), card::bench(), stamp).ledger;
    let paid = refreshes(there, stamp, 9);
    if asleep == 0 {
        return paid;
    }
    comes(
        comes(paid, stamp + 833, Move::Falls(Level::SelfRefresh)),
        (to + (833 + asleep)) as u32,
        Move::Rises(Level::SelfRefresh),
    )
}

// Round behind round, up to the last stamp there is.
fn all_cycles(from: Ledger, asleep: u64) -> Ledger
    requires { asleep ≤ 100000 }
{
    let mut ledger = from;
    for to in (24960..4294967296 - (833 + asleep)).step_by((25792 + asleep) as usize) {
        ledger = round(ledger, to, asleep);
    }
    ledger
}

fn main(rt: HostRuntime) {
    paper(&rt);
    own_cycles(&rt);
    refusals(&rt);
    sleeps::all(&rt);
    temperatures::all(&rt);
    periods::all(&rt);
    moves(&rt, stands(0, 8, 0), 4294967295);
    moves(&rt, stands(4294939215, 8, 4294939215), 4294967295);
    moves(&rt, stands(4294967295, 16, 0), 4294967295);
    moves(
        &rt,
        lent(4294967295, 16, 0, 4294967295, Level::Awake),
        4294967295,
    );
    moves(
        &rt,
        lent(4294967000, 16, 0, 4294939000, Level::Awake),
        4294967295,
    );
    moves(
        &rt,
        lent(4294967000, 16, 0, 4294939000, Level::Deep),
        4294967295,
    );
    moves(&rt, all_cycles(stands(0, 8, 0), 0), 4294967295);
    moves(&rt, all_cycles(stands(0, 8, 0), 100000), 4294940000);
}
