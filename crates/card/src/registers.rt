// The latencies that MR2 sets, nWR, which MR1 sets with it, and what MRW may write.
ghost use Rattle.std.specs.Prelude.{◌≡◌};
ghost use Rattle.rules.specs.Registers.{mr2_good, rl_of, wl_of, mr1_good, nwr_of, may_write};
ghost use Rattle.card.specs.Rows.{found_at, code_good, pair_of, recovery_at};
ghost use Rattle.card.specs.Values.{modes_of};

use crate::{Femtoseconds, Latency, Modes, Picoseconds};

// A row of the table: the code in MR2's OP3-0, the least period in ps that it may stand with, RL, and WL of set A and of set B.
#[derive(Clone, Copy)]
struct Row(u8, u32, u8, u8, u8);

const ROWS: [Row; 9] = [
    Row(0b0001, 6000, 3, 1, 1),
    Row(0b0100, 2500, 6, 3, 3),
    Row(0b0110, 1875, 8, 4, 4),
    Row(0b0111, 1670, 9, 5, 5),
    Row(0b1000, 1500, 10, 6, 8),
    Row(0b1001, 1360, 11, 6, 9),
    Row(0b1010, 1250, 12, 6, 9),
    Row(0b1100, 1071, 14, 8, 11),
    Row(0b1110, 938, 16, 8, 13),
];

// The row that OP3-0 of MR2 picks.
fn row_at(mr2: u8) -> Option<Row>
    ensures { result ≡ found_at mr2 }
{
    let code = mr2 % 16;
    ROWS.iter().copied().find(|row| row.0 == code)
}

// Whether OP3-0 of MR2 is a code whose least period does not exceed the card's.
fn code_good(period: Femtoseconds, mr2: u8) -> bool
    ensures { result ≡ code_good period.0 mr2 }
{
    row_at(mr2).is_some_and(|Row(_, least, ..)| Picoseconds::from(least).femtoseconds().0
        <= period.0)
}

#[tactic(auto, unfolding(rules::specs::Registers::mr2_good, crate::specs::Rows::code_good, rules::specs::Bits::bits, rules::specs::Bits::on))]
pub fn mr2_good(period: Femtoseconds, value: u8) -> bool
    ensures { result ≡ mr2_good period.0 value }
{
    value / 128 % 2 != 1 && value / 32 % 2 != 1 && code_good(period, value)
}

// RL and WL by MR2, whose OP6 picks the set. Both are 0, and no None, where no row has the code: `latency_of` is public so.
pub fn latency_of(mr2: u8) -> Latency
    ensures { (result.rl ≡ rl_of mr2) × (result.wl ≡ wl_of mr2) }
{
    match row_at(mr2) {
        Some(Row(_, _, rl, wl_a, wl_b)) => Latency {
            rl,
            wl: if mr2 / 64 % 2 == 1 { wl_b } else { wl_a },
        },
        None => Latency { rl: 0, wl: 0 },
    }
}

// OP4 of MR2 before OP7-5 of MR1.
#[tactic(auto, unfolding(crate::specs::Rows::pair_of, rules::specs::Bits::bits))]
fn pair_of(mr2: u8, mr1: u8) -> u8
    ensures { result ≡ pair_of mr2 mr1 }
{
    mr2 / 16 % 2 * 8 + mr1 / 32
}

// nWR of a pair, by a table of its own in the documents; `twr` where it is not listed.
#[tactic(auto, unfolding(crate::specs::Rows::recovery_at, rules::specs::Registers::at_pair, rules::specs::Registers::recoveries, rules::specs::Registers::recovery))]
fn recovery_at(pair: u8, twr: u32) -> u32
    ensures { result ≡ recovery_at pair twr }
{
    match pair {
        0b0001 => 3,
        0b0100 => 6,
        0b0110 => 8,
        0b0111 => 9,
        0b1000 => 10,
        0b1001 => 11,
        0b1010 => 12,
        0b1100 => 14,
        0b1110 => 16,
        _ => twr,
    }
}

// nWR, where `twr` is n(tWR): it counts for a pair that is not listed, and where there is no MR1.
#[tactic(auto, using(crate::proofs::Recovered::by_pair), unfolding(rules::specs::Registers::nwr_of, rules::specs::Registers::nwr_by, crate::specs::Values::modes_of, crate::specs::Values::mr1_if))]
pub fn nwr_of(modes: Modes, twr: u32) -> u32
    ensures { result ≡ nwr_of twr (modes_of modes) }
{
    if modes.programmed {
        recovery_at(pair_of(modes.mr2, modes.mr1), twr)
    } else {
        twr
    }
}

#[tactic(auto, unfolding(rules::specs::Registers::mr1_good, rules::specs::Bits::bits))]
pub fn mr1_good(value: u8) -> bool
    ensures { result ≡ mr1_good value }
{
    value % 8 == 3
}

// What 9 asks of a value: only MA 1 and 2 ask anything of it; whether an MA is listed is 7's question.
#[tactic(auto, unfolding(rules::specs::Registers::may_write))]
pub fn mrw_value_good(period: Femtoseconds, ma: u8, op: u8) -> bool
    ensures { result ≡ may_write period.0 ma op }
{
    match ma {
        1 => mr1_good(op),
        2 => mr2_good(period, op),
        _ => true,
    }
}
