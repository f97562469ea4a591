// What pins are where two parts share the bus.
ghost use Rattle.std.specs.Prelude.{◌≡◌};
ghost use Rattle.rules.specs.Levels as rules;
ghost use Rattle.pins.specs.Values.{read_of};

use crate::bits::number;
use crate::{Command, Read, Undecoded, bits, reader};

// The part whose CS_n is low sees clock enable high and the CA bits.
#[tactic(auto, unfolding(rules::specs::Levels::seen, rules::specs::Pins::enabled, rules::specs::Bits::bits))]
fn seen(pins: u32) -> u32
    ensures { result ≡ rules.seen pins }
{
    0x200000 + number(pins, 0, 20)
}

// By the four bits above the CA bits: bit 23 is 0, the second CS_n is bit 22, clock enable is 1, the first CS_n is bit 20.
#[tactic(auto, using(crate::proofs::Selected::both_low, crate::proofs::Selected::second_low, crate::proofs::Selected::first_low, crate::proofs::Selected::both_high, crate::proofs::Selected::wrong_bits_lem), unfolding(crate::specs::Values::read_of, crate::specs::Values::decoded_of, crate::specs::Values::command_of))]
pub fn read_pair(pins: u32) -> Read
    ensures { read_of result ≡ rules.read_pair pins }
{
    match pins >> bits::FIRST_SELECT {
        0b0010 => Read::Clash,
        0b0011 | 0b0110 => Read::Plain(reader::decode(seen(pins))),
        0b0111 => Read::Plain(Ok(Command::Nop)),
        _ => Read::Plain(Err(Undecoded::WrongBits)),
    }
}
