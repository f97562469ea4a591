// Low clock-enable: what pins say at a level, what that is recorded and judged as, and the level after it.
ghost use Rattle.std.specs.Prelude.{◌≡◌, true};
ghost use Rattle.rules.specs.Pins.{kind_at};
ghost use Rattle.rules.specs.Bits.{bits};
ghost use Rattle.rules.specs.Levels as rules;
ghost use Rattle.rules.specs.Entries as entries;
ghost use Rattle.pins.specs.Values.{command_of, level_of, moved_of, read_of, ReadAs};

use crate::{Command, Level, Move, Read, Undecoded, bits, pairs, reader};

pub fn is_awake(level: Level) -> bool
    ensures { result ≡ rules.same_level rules.awake (level_of level) }
{
    level == Level::Awake
}

pub fn rises_from(level: Level, moved: Move) -> bool
    ensures { result ≡ rules.rises_from (level_of level) (moved_of moved) }
{
    moved == Move::Rises(level)
}

#[tactic(auto, unfolding(rules::specs::Levels::level_after, crate::specs::Values::level_of, crate::specs::Values::moved_of))]
pub fn level_after(moved: Move, level: Level) -> Level
    ensures { level_of result ≡ rules.level_after (moved_of moved) (level_of level) }
{
    match moved {
        Move::Stays => level,
        Move::Falls(to) => to,
        Move::Rises(_) => Level::Awake,
    }
}

// With CS_n low: LLH, which REFpb and REFab begin with, enters self-refresh, and HHL deep power-down.
fn fall_by(pins: u32) -> Read
    ensures { read_of result ≡ rules.fall_by (kind_at (bits pins 0 10)) }
{
    match pins % 8 {
        4 => Read::Moved(Move::Falls(Level::SelfRefresh)),
        3 => Read::Moved(Move::Falls(Level::Deep)),
        _ => Read::Barred,
    }
}

#[tactic(auto, unfolding(rules::specs::Levels::fall, crate::specs::Values::level_of, crate::specs::Values::moved_of, crate::specs::Values::read_of))]
fn fall(pins: u32) -> Read
    ensures { read_of result ≡ rules.fall pins }
{
    if bits::is_on(pins, bits::FIRST_SELECT) {
        Read::Moved(Move::Falls(Level::PowerDown))
    } else {
        fall_by(pins)
    }
}

#[tactic(auto, unfolding(rules::specs::Levels::rise, crate::specs::Values::moved_of, crate::specs::Values::read_of))]
fn rise(level: Level, pins: u32) -> Read
    ensures { read_of result ≡ rules.rise (level_of level) pins }
{
    if bits::is_on(pins, bits::FIRST_SELECT) {
        Read::Moved(Move::Rises(level))
    } else {
        Read::Barred
    }
}

#[tactic(auto, unfolding(rules::specs::Levels::read_at, crate::specs::Values::level_of, crate::specs::Values::read_of))]
fn read_at(level: Level, pins: u32) -> Read
    ensures { read_of result ≡ rules.read_at (level_of level) pins }
{
    let enabled = bits::is_on(pins, bits::CLOCK_ENABLE);
    match level {
        Level::Awake if enabled => Read::Plain(reader::decode(pins)),
        Level::Awake => fall(pins),
        Level::PowerDown | Level::SelfRefresh if enabled => rise(level, pins),
        Level::PowerDown | Level::SelfRefresh => Read::Asleep,
        Level::Deep => Read::Barred,
    }
}

// Where the card has low clock-enable. A bit above 21 makes them wrong.
#[tactic(auto, using(crate::proofs::Asleep::high_bits, crate::proofs::Asleep::by_level), unfolding(crate::specs::Values::decoded_of, crate::specs::Values::read_of))]
fn read_sleeping(level: Level, pins: u32) -> Read
    ensures { read_of result ≡ rules.read_pins true (level_of level) pins }
{
    if pins >> bits::SECOND_SELECT != 0 {
        return Read::Plain(Err(Undecoded::WrongBits));
    }
    read_at(level, pins)
}

// What these pins are at this level, where the card has low clock-enable (`sleeps`), two parts (`paired`), or neither.
#[tactic(auto, using(crate::proofs::Values::read_as), unfolding(rules::specs::Levels::read_as, rules::specs::Levels::read_pins, crate::specs::Values::read_of))]
pub fn read_pins(sleeps: bool, paired: bool, level: Level, pins: u32) -> Read
    ensures { ReadAs (rules.read_as sleeps paired (level_of level) pins) result }
{
    if sleeps {
        read_sleeping(level, pins)
    } else if paired {
        pairs::read_pair(pins)
    } else {
        Read::Plain(reader::decode(pins))
    }
}

// The command that the entry leaves in the record: a move, an entry asleep, a temperature, and pins that are no command are NOP.
#[tactic(auto, using(crate::proofs::Uncommanded::or_nop, crate::proofs::Uncommanded::no_command), unfolding(rules::specs::Entries::recorded_as, crate::specs::Values::read_of))]
pub fn recorded(read: Read) -> Command
    ensures { command_of result ≡ entries.recorded_as (read_of read) }
{
    match read {
        Read::Plain(decoded) => decoded.unwrap_or(Command::Nop),
        _ => Command::Nop,
    }
}

#[tactic(auto, unfolding(rules::specs::Entries::moves_as, rules::specs::Entries::falls_as, crate::specs::Values::command_of, crate::specs::Values::moved_of, crate::specs::Values::level_of))]
fn moves_as(moved: Move) -> Command
    ensures { command_of result ≡ entries.moves_as (moved_of moved) }
{
    match moved {
        Move::Falls(Level::SelfRefresh | Level::Deep) => Command::Refab,
        Move::Falls(Level::Awake | Level::PowerDown) | Move::Stays | Move::Rises(_) => Command::Nop,
    }
}

// The command that bank states and delays are asked of: the entries into self-refresh and deep power-down are REFab.
#[tactic(auto, using(crate::proofs::Uncommanded::judged_so), unfolding(rules::specs::Entries::judged_as, crate::specs::Values::read_of))]
pub fn judged(read: Read) -> Command
    ensures { command_of result ≡ entries.judged_as (read_of read) }
{
    match read {
        Read::Moved(moved) => moves_as(moved),
        _ => recorded(read),
    }
}

#[tactic(auto, using(crate::proofs::Uncommanded::no_move), unfolding(rules::specs::Entries::move_of, crate::specs::Values::read_of))]
pub fn move_of(read: Read) -> Move
    ensures { moved_of result ≡ entries.move_of (read_of read) }
{
    match read {
        Read::Moved(moved) => moved,
        _ => Move::Stays,
    }
}
