// Writing a command as an entry field.
ghost use Rattle.std.specs.Prelude.{◌≡◌, ◌&&◌, ◌≤◌, ◌<◌, length};
ghost use Rattle.rules.specs.Pins.{writable, encode};
ghost use Rattle.rules.specs.Writer.{told_good, encode_for, write_refusal, written};
ghost use Rattle.pins.specs.Places.{ma_pins, op_pins, bank_pins, row_pins, column_pins, ap_pin};
ghost use Rattle.pins.specs.Values.{command_of, told_of, refusal_of};

use crate::bits::number;
use crate::{Command, Unwritten, fields, reader, telling};

// What a command carries has a place on the pins, and MRW goes to a listed register.
#[tactic(auto, unfolding(rules::specs::Pins::writable, rules::specs::Commands::is, rules::specs::Commands::code, rules::specs::Commands::kind_of, rules::specs::Commands::carries, rules::specs::Commands::bare, crate::specs::Values::command_of))]
fn fits(command: Command) -> bool
    ensures { result ≡ writable (command_of command) }
{
    match command {
        Command::Mrw { ma, .. } => reader::listed(ma),
        Command::Act { bank, row } => bank <= 7 && row <= 32767,
        Command::Rd { bank, column, .. } | Command::Wr { bank, column, .. } => {
            bank <= 7 && column <= 4095 && column % 2 == 0
        }
        Command::Pre { bank } => bank <= 7,
        Command::Nop | Command::Mrr { .. } | Command::Refpb | Command::Refab | Command::Prea =>
            true,
    }
}

fn ma_pins(ma: u8) -> u32
    ensures { result ≡ ma_pins ma }
{
    u32::from(ma) << 4
}

fn op_pins(op: u8) -> u32
    ensures { result ≡ op_pins op }
{
    u32::from(op) << 12
}

#[tactic(auto, unfolding(rules::specs::Bits::bits))]
fn bank_pins(bank: u8) -> u32
    ensures { result ≡ bank_pins bank }
{
    number(u32::from(bank), 0, 3) << 7
}

#[tactic(auto, unfolding(rules::specs::Bits::bits))]
fn row_pins(row: u16) -> u32
    ensures { result ≡ row_pins row }
{
    let row = u32::from(row);
    (number(row, 8, 5) << 2) + (number(row, 0, 8) << 10) + (number(row, 13, 2) << 18)
}

#[tactic(auto, unfolding(rules::specs::Bits::bits))]
fn column_pins(column: u16) -> u32
    ensures { result ≡ column_pins column }
{
    let column = u32::from(column);
    (number(column, 1, 2) << 5) + (number(column, 3, 9) << 11)
}

fn ap_pin(ap: bool) -> u32
    ensures value { result ≡ ap_pin ap }
    ensures small { result ≤ 1024 }
{
    u32::from(ap) << 10
}

// The pins of a command, also of one that the writer does not take: clock enable, CS_n and the levels from CA0r on, and its numbers.
#[tactic(auto, using(crate::proofs::Places::ma_scattered, crate::proofs::Places::op_scattered, crate::proofs::Places::bank_scattered, crate::proofs::Places::row_scattered, crate::proofs::Places::column_scattered, crate::proofs::Places::ap_bit), unfolding(rules::specs::Pins::encode, rules::specs::Pins::enabled, rules::specs::Pins::levels, rules::specs::Pins::CAf, rules::specs::Bits::bit, crate::specs::Values::command_of))]
fn pins_of(command: Command) -> u32
    ensures value { result ≡ encode (command_of command) }
    ensures small { result < 0x800000 }
{
    match command {
        Command::Nop => 0x300000,
        Command::Mrw { ma, op } => 0x200000 + ma_pins(ma) + op_pins(op),
        Command::Mrr { ma } => 0x200008 + ma_pins(ma),
        Command::Refpb => 0x200004,
        Command::Refab => 0x20000c,
        Command::Act { bank, row } => 0x200002 + bank_pins(bank) + row_pins(row),
        Command::Rd { bank, column, ap } => {
            0x200005 + bank_pins(bank) + column_pins(column) + ap_pin(ap)
        }
        Command::Wr { bank, column, ap } => {
            0x200001 + bank_pins(bank) + column_pins(column) + ap_pin(ap)
        }
        Command::Pre { bank } => 0x20000b + bank_pins(bank),
        Command::Prea => 0x20001b,
    }
}

#[tactic(auto, using(crate::proofs::Written::for_one, crate::proofs::Written::for_part))]
fn pins_for(paired: bool, told: Option<u8>, command: Command) -> u32
    ensures { result ≡ encode_for paired (told_of told) (command_of command) }
{
    if !paired {
        pins_of(command)
    } else if telling::is_nop(command) {
        0x700000
    } else {
        pins_of(command) + telling::other_select(told)
    }
}

// `write_entry` is handed the three singly, and a struct of them would serve this call and the next alone.
fn takes(paired: bool, told: Option<u8>, command: Command) -> bool
    ensures { result ≡ (told_good paired (told_of told) (command_of command) && writable (command_of command)) }
{
    telling::told_good(paired, told, command) && fits(command)
}

// The entry field at the start of the buffer, or a refusal that leaves the buffer as it is. Any part may be told: 14 refuses one above 1 (`told_good`).
pub fn write_entry(
    paired: bool,
    told: Option<u8>,
    stamp: u32,
    command: Command,
    buffer: &mut [u8],
) -> Result<(), Unwritten>
    ensures answer { refusal_of result ≡ write_refusal paired (told_of told) (command_of command) (length buffer.old) }
    ensures memory { buffer.new ≡ written paired (told_of told) stamp (command_of command) buffer.old }
{
    // 14 comes before 15
    if !takes(paired, told, command) {
        return Err(Unwritten::Unfit);
    }
    if buffer.len() < 10 {
        return Err(Unwritten::NoRoom);
    }
    fields::put_entry(buffer, stamp, pins_for(paired, told, command));
    Ok(())
}
