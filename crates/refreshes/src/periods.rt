// Periods in femtoseconds (document 02, Four): the account under each MR4 code where the period is no whole number of picoseconds, and cards at the bounds of the
// period and beyond.
use crate::show::{effect, first, lent_pace, show, show_number, show_pace, stands};
use card::{Card, Femtoseconds};
use ledger::Pace;
use pins::Move;

// With the fastest latency, which every period of the range permits.
fn with_period(fs: u64, trefi: u32) -> Card {
    Card {
        period: Femtoseconds(fs),
        mr2: 0x1e,
        trefi,
        ..card::bench()
    }
}

fn under(rt: &impl Print, fine: Card, mr4: u8) {
    let pace = show_pace(rt, ledger::respaced(lent_pace(4294967296, 3), fine, 0, mr4));
    show_number(rt, ledger::deadline(stands(0, 8, 0), pace, fine));
    show(rt, ledger::moved(stands(0, 8, 0), pace, fine, 8180));
    show(rt, ledger::moved(stands(0, 8, 0), pace, fine, 8181));
}

fn every_code(rt: &impl Print, trefi: u32) {
    let fine = with_period(1071811, trefi);
    show_pace(rt, ledger::first_pace(fine));
    for mr4 in 1..=6u8 {
        under(rt, fine, mr4);
    }
}

fn stays(rt: &impl Print, card: Card, pace: Pace) {
    show(rt, ledger::moved(stands(0, 8, 0), pace, card, 1));
    show(
        rt,
        ledger::entered(
            stands(0, 8, 0),
            pace,
            card,
            1,
            effect(false, false, Move::Stays),
        ),
    );
}

fn edge(rt: &impl Print, fs: u64, trefi: u32) {
    let card = with_period(fs, trefi);
    stays(rt, card, ledger::first_pace(card));
}

// 13 whatever the upper half; the pace has one meaning all the same.
fn odd(rt: &impl Print, fs: u64) {
    let card = with_period(fs, 20000000);
    stays(rt, card, first());
    show_pace(rt, ledger::first_pace(card));
    show_pace(
        rt,
        ledger::respaced(lent_pace(18446744073709551615, 1), card, 4294967295, 1),
    );
    show_pace(rt, ledger::respaced(lent_pace(0, 6), card, 4294967295, 2));
}

fn edges(rt: &impl Print) {
    for fs in [937999, 938000, 100000000, 100000001] {
        edge(rt, fs, 3900000);
    }
    edge(rt, 1000500, 1000);
    for fs in [1000500, 1001000, 1001001] {
        edge(rt, fs, 1001);
    }
}

pub fn all(rt: &impl Print) {
    for trefi in [3900000, 1071811, 1071810] {
        every_code(rt, trefi);
    }
    edges(rt);
    for fs in [
        1250,
        4296217296,
        9223372036854775808,
        9223372036856025808,
        18446744073709551615,
    ] {
        odd(rt, fs);
    }
}
