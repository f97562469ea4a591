// What stands behind the stamp in the line of the commonest commands, straight from the pins.
ghost use Rattle.std.specs.Prelude.{◌≡◌, ◌+◌, ◌*◌, ◌/◌, ◌%◌, ◌<◌, Some, IfSome};
ghost use Rattle.rules.specs.Commands.{code};
ghost use Rattle.rules.specs.Pins.{kind_at};
ghost use Rattle.pins.specs.Values.{level_of};
ghost use Rattle.lines.specs.Quick.{high_at, level_with, tail_at, TailOn};

use pins::Level;

// The end of a line, with 0 for the bank: the last `size` of the eight bytes, which are put all eight, for speed (`Lead`).
#[derive(Clone, Copy)]
pub struct Tail {
    pub text: [u8; 8],
    pub size: usize,
}

pub fn bank_digit(pins: u32) -> u8
    ensures { result ≡ 48 + pins / 128 % 8 }
{
    b'0' + (pins / 128 % 8) as u8
}

// Twice the kind's number, as `kind_of` promises it, and one more with auto-precharge.
fn key_on(pins: u32) -> u32
    ensures { result ≡ 2 * code (kind_at (pins % 1024)) + pins / 1024 % 2 }
{
    2 * u32::from(pins::kind_of(pins)) + pins / 1024 % 2
}

fn ending(text: &[u8; 8], size: usize) -> Option<Tail>
    ensures { result ≡ Some (record { text = text.now; size = size }) }
{
    Some(Tail { text: *text, size })
}

// An arm for each key: with or-patterns for the two that are alike the proof did not close. NOP too is left to the general way.
#[tactic(auto, unfolding(crate::specs::Quick::tail_at))]
fn tail_at(key: u32) -> Option<Tail>
    ensures { result ≡ tail_at key }
{
    match key {
        10 => ending(b"  ACT 0\n", 7),
        11 => ending(b"  ACT 0\n", 7),
        12 => ending(b"   RD 0\n", 6),
        13 => ending(b"  RDA 0\n", 7),
        14 => ending(b"   WR 0\n", 6),
        15 => ending(b"  WRA 0\n", 7),
        16 => ending(b"  PRE 0\n", 7),
        17 => ending(b"  PRE 0\n", 7),
        _ => None,
    }
}

// What the pins from CS_n up are where there is a tail. Two parts have none.
#[tactic(auto, unfolding(crate::specs::Quick::high_at, pins::specs::Values::level_of))]
pub fn high_of(paired: bool, level: Level) -> u32
    ensures { result ≡ high_at paired (level_of level) }
{
    match level {
        Level::Awake => if paired { 4099 } else { 2 },
        Level::PowerDown => 4096,
        Level::SelfRefresh => 4097,
        Level::Deep => 4098,
    }
}

// The level that it tells.
#[tactic(auto, unfolding(crate::specs::Quick::level_with, pins::specs::Values::level_of))]
pub fn level_with(high: u32) -> Level
    ensures { level_of result ≡ level_with high }
{
    match high {
        4096 => Level::PowerDown,
        4097 => Level::SelfRefresh,
        4098 => Level::Deep,
        _ => Level::Awake,
    }
}

// None where they are others, or where it is another command, or none.
pub fn tail_on(pins: u32, high: u32) -> Option<Tail>
    ensures { IfSome result (λ tail. (pins / 1048576 ≡ high) × (high < 4096) × (high ≡ 2 → TailOn pins tail)) }
{
    if pins / 1048576 != high {
        return None;
    }
    tail_at(key_on(pins))
}
