// Reading the pins of an entry.
ghost use Rattle.std.specs.Prelude.{◌≡◌};
ghost use Rattle.rules.specs.Commands.{MRW};
ghost use Rattle.rules.specs.Pins.{of_kind, listed_ma};
ghost use Rattle.pins.specs.Places.{ma_on, op_on, bank_on, row_on, column_on, ap_on};
ghost use Rattle.pins.specs.Table.{kind_with};
ghost use Rattle.pins.specs.Values.{decoded_of, DecodedAs};

use crate::bits::number;
use crate::{Command, Undecoded, bits, table};

// The mode registers that MRW takes.
#[tactic(auto, unfolding(rules::specs::Pins::listed_ma, rules::specs::Lists::is_one_of))]
pub fn listed(ma: u8) -> bool
    ensures { result ≡ listed_ma ma }
{
    matches!(ma, 1 | 2 | 3 | 11 | 16 | 17)
}

#[tactic(auto, unfolding(rules::specs::Bits::bits))]
fn ma_on(pins: u32) -> u8
    ensures { result ≡ ma_on pins }
{
    number(pins, 4, 8) as u8
}

#[tactic(auto, unfolding(rules::specs::Bits::bits))]
fn op_on(pins: u32) -> u8
    ensures { result ≡ op_on pins }
{
    number(pins, 12, 8) as u8
}

#[tactic(auto, unfolding(rules::specs::Bits::bits))]
fn bank_on(pins: u32) -> u8
    ensures { result ≡ bank_on pins }
{
    number(pins, 7, 3) as u8
}

#[tactic(auto, unfolding(rules::specs::Bits::bits))]
fn row_on(pins: u32) -> u16
    ensures { result ≡ row_on pins }
{
    (number(pins, 10, 8) + number(pins, 2, 5) * 256 + number(pins, 18, 2) * 8192) as u16
}

#[tactic(auto, unfolding(rules::specs::Bits::bits))]
fn column_on(pins: u32) -> u16
    ensures { result ≡ column_on pins }
{
    (number(pins, 5, 2) * 2 + number(pins, 11, 9) * 8) as u16
}

#[tactic(auto, unfolding(rules::specs::Bits::on, rules::specs::Bits::bits))]
fn ap_on(pins: u32) -> bool
    ensures { result ≡ ap_on pins }
{
    bits::is_on(pins, 10)
}

#[tactic(auto, using(crate::proofs::Places::gathers), unfolding(rules::specs::Pins::of_kind, crate::specs::Values::command_of, crate::specs::Values::decoded_of))]
fn mrw_on(pins: u32) -> Result<Command, Undecoded>
    ensures { decoded_of result ≡ of_kind MRW pins }
{
    let ma = ma_on(pins);
    if listed(ma) {
        Ok(Command::Mrw {
            ma,
            op: op_on(pins),
        })
    } else {
        Err(Undecoded::Reserved)
    }
}

// The command of a kind, by the kind's number in the table, as `kinds` and `kind_of` promise it.
#[tactic(auto, using(crate::proofs::Places::gathers), unfolding(rules::specs::Pins::of_kind, crate::specs::Table::kind_with, crate::specs::Values::command_of, crate::specs::Values::decoded_of))]
fn of_kind(kind: u8, pins: u32) -> Result<Command, Undecoded>
    ensures { decoded_of result ≡ of_kind (kind_with kind) pins }
{
    match kind {
        0 => Ok(Command::Nop),
        1 => mrw_on(pins),
        2 => Ok(Command::Mrr { ma: ma_on(pins) }),
        3 => Ok(Command::Refpb),
        4 => Ok(Command::Refab),
        5 => Ok(Command::Act {
            bank: bank_on(pins),
            row: row_on(pins),
        }),
        6 => Ok(Command::Rd {
            bank: bank_on(pins),
            column: column_on(pins),
            ap: ap_on(pins),
        }),
        7 => Ok(Command::Wr {
            bank: bank_on(pins),
            column: column_on(pins),
            ap: ap_on(pins),
        }),
        8 => Ok(Command::Pre {
            bank: bank_on(pins),
        }),
        9 => Ok(Command::Prea),
        _ => Err(Undecoded::Reserved),
    }
}

// What these pins are. A bit above 21 makes them wrong.
pub fn decode(pins: u32) -> Result<Command, Undecoded>
    ensures { DecodedAs pins result }
{
    if pins >> bits::CLOCK_ENABLE != 1 {
        return Err(Undecoded::WrongBits);
    }
    if bits::is_on(pins, bits::FIRST_SELECT) {
        return Ok(Command::Nop);
    }
    of_kind(table::kind_of(pins), pins)
}
