// The value of a card's field, read from its bytes.
ghost use Rattle.std.specs.Prelude.{◌≡◌, true, ◌*◌, ◌^◌, ◌≤◌, ◌<◌, length, take, drop};
ghost use Rattle.rules.specs.Form as form;
ghost use Rattle.card.specs.Values.{timing};
ghost use Rattle.card.specs.Reading as reading;

use crate::ranges::value_good;
use crate::tags::{may_come, of_card, wrong_tag};
use crate::{Card, Femtoseconds, Picoseconds, Unread};

#[tactic(auto, using(std::proofs::lemmas::Bool::Decides::nat_tests, crate::proofs::Lengths::by_size), unfolding(crate::specs::Reading::sizes_of, rules::specs::Ranges::within))]
pub fn length_good(tag: u8, size: usize) -> bool
    ensures { result ≡ form.length_good tag size }
{
    match tag {
        1 => size == 4 || size == 8,
        2 | 23 | 25 => size == 1,
        3 => size == 2,
        4 | 26 | 33 => size == 4,
        5..=22 | 34 => size == 5,
        32 => size == 7,
        _ => false,
    }
}

// Numbers are big-endian.
fn number(bytes: &[u8]) -> u64
    requires { length bytes.now ≤ 8 }
    ensures { (result ≡ form.number bytes.now) × (result < 2 ^ (8 * length bytes.now)) }
{
    let mut x = 0;
    for byte in bytes {
        x = 256 * x + u64::from(*byte);
    }
    x
}

// The whole value of tags 2 to 4, 23, 25 and 26, and the duration of a timing.
fn first_four(value: &[u8]) -> u64
    ensures { result ≡ form.number (take 4 value.now) }
{
    number(&value[..value.len().min(4)])
}

// Eight bytes are femtoseconds, and four picoseconds.
#[tactic(auto, using(crate::proofs::Lengths::period_length), unfolding(rules::specs::Form::period_of))]
fn period_of(value: &[u8]) -> Femtoseconds
    requires { form.length_good 1 (length value.now) ≡ true }
    ensures { result.0 ≡ form.period_of value.now }
{
    let x = number(value);
    if value.len() == 8 {
        Femtoseconds(x)
    } else {
        Picoseconds(x).femtoseconds()
    }
}

// The floor of a timing; of a shorter value the number of no bytes, 0.
#[tactic(auto, using(crate::proofs::Numbers::fifth_byte))]
fn fifth(value: &[u8]) -> u8
    requires { length value.now ≤ 5 }
    ensures { result ≡ form.number (drop 4 value.now) }
{
    value.get(4).copied().unwrap_or(0)
}

#[tactic(auto, unfolding(crate::specs::Reading::put, rules::specs::Ranges::within))]
fn put_timing(mut card: Card, tag: u8, x: u32, floor: u8) -> Card
    requires { (5 ≤ tag) × (tag ≤ 22) }
    ensures { result ≡ reading.put card tag x (timing x floor) }
{
    let i = usize::from(tag - 5);
    card.durations[i] = x;
    card.floors[i] = floor;
    card.sleeps = card.sleeps || tag == 19;
    card
}

// `good` says that x fits each field, so that a TryFrom would have a refusal that never comes.
#[tactic(auto, using(std::proofs::lemmas::Bool::Decides::nat_tests, crate::proofs::Lengths::a_timing, crate::proofs::Numbers::mr2_byte, crate::proofs::Numbers::start_byte, crate::proofs::Numbers::groups_short, crate::proofs::Numbers::trefi_short, crate::proofs::Numbers::raise_short, crate::proofs::Numbers::timing_short, crate::proofs::Numbers::gap_byte), unfolding(crate::specs::Reading::put, crate::specs::Reading::good, rules::specs::Ranges::within))]
fn put(card: Card, tag: u8, x: u64, floor: u8) -> Card
    requires { (form.of_card tag ≡ true) × (reading.good card.sleeps card.period.0 tag x (timing x floor) ≡ true) }
    ensures { result ≡ reading.put card tag x (timing x floor) }
{
    match tag {
        1 => Card {
            period: Femtoseconds(x),
            ..card
        },
        2 => Card {
            mr2: x as u8,
            ..card
        },
        3 => Card {
            groups: x as u16,
            ..card
        },
        4 => Card {
            trefi: x as u32,
            ..card
        },
        23 => Card {
            programmed: true,
            mr1: x as u8,
            ..card
        },
        25 => Card {
            paired: true,
            gap: x as u8,
            ..card
        },
        26 => Card {
            raise: x as u32,
            ..card
        },
        _ => put_timing(card, tag, x as u32, floor),
    }
}

// The next field of a card, of which this much was read: behind the field with tag `last`, and if `begun` behind an entry.
#[tactic(auto, using(crate::proofs::Lengths::card_length, crate::proofs::Told::bad_length_lem))]
pub fn read_value(card: Card, begun: bool, last: u8, tag: u8, value: &[u8]) -> Result<Card, Unread>
    ensures { reading.ReadAs card begun last tag value.now result }
{
    if !(of_card(tag) && may_come(begun, last, tag)) {
        return Err(Unread::Tag(wrong_tag(begun, last, card.sleeps, tag)));
    }
    if !length_good(tag, value.len()) {
        return Err(Unread::Length);
    }
    let (x, floor) = if tag == 1 {
        (period_of(value).0, 0)
    } else {
        (first_four(value), fifth(value))
    };
    if !value_good(card, tag, x) {
        return Err(Unread::Value);
    }
    Ok(put(card, tag, x, floor))
}

// The card before its first field.
pub fn blank() -> Card
    ensures { result ≡ reading.blank_card }
{
    Card::default()
}
