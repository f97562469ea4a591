// An entry field: its ten bytes, put at the start of a buffer and read at a place of some bytes.
ghost use Rattle.std.specs.Prelude.{◌≡◌, ◌+◌, ◌++◌, ◌≤◌, ◌<◌, length, take, drop, MatchOption};
ghost use Rattle.rules.specs.Writer.{entry_bytes};
ghost use Rattle.pins.specs.Fronts.{front_of, stamp_in};

use crate::Front;

// The bytes behind it stay.
#[tactic(auto, using(crate::proofs::Fronts::field_is))]
pub fn put_entry(buffer: &mut [u8], stamp: u32, pins: u32)
    requires { 10 ≤ length buffer.old }
    ensures { buffer.new ≡ entry_bytes stamp pins ++ drop 10 buffer.old }
{
    let [s3, s2, s1, s0] = stamp.to_be_bytes();
    let [_, p2, p1, p0] = pins.to_be_bytes();
    buffer[..10].copy_from_slice(&[32, 0, 7, s3, s2, s1, s0, p2, p1, p0]);
}

// The next N bytes from a place on, where so many stand there.
fn chunk_at<const N: usize>(bytes: &[u8], at: usize) -> Option<[u8; N]>
    ensures { MatchOption result (length bytes.now < at + N) (λ chunk. (at + N ≤ length bytes.now) × (chunk ≡ take N (drop at bytes.now))) }
{
    bytes.get(at..)?.first_chunk().copied()
}

// Four bytes as a number; 0 where there are fewer, as `stamp_in` promises.
#[tactic(auto, using(crate::proofs::Fronts::no_stamp, crate::proofs::Fronts::stamp_there))]
pub fn stamp_at(bytes: &[u8], at: usize) -> u32
    ensures { result ≡ stamp_in (drop at bytes.now) }
{
    match chunk_at(bytes, at) {
        Some(stamp) => u32::from_be_bytes(stamp),
        None => 0,
    }
}

// The entry field at a place of some bytes, where one stands there whole. Two forms stay for the speed of a run of entries, where the plain forms take 2
// instructions more an entry (the pins by `from_be_bytes`) and 4 (the head by a slice pattern): the head by its first two bytes, from the lower place on and so in one
// comparison, and the pins as a sum.
#[tactic(auto, using(crate::proofs::Fronts::no_entry, crate::proofs::Fronts::other_tag, crate::proofs::Fronts::other_length, crate::proofs::Fronts::whole_field, crate::proofs::Fronts::front_there))]
pub fn entry_at(bytes: &[u8], at: usize) -> Option<Front>
    ensures { result ≡ front_of (drop at bytes.now) }
{
    let [tag, l1, l0, s3, s2, s1, s0, p2, p1, p0] = chunk_at::<10>(bytes, at)?;
    if u16::from_le_bytes([tag, l1]) != 32 {
        return None;
    }
    if l0 != 7 {
        return None;
    }
    Some(Front {
        stamp: u32::from_be_bytes([s3, s2, s1, s0]),
        pins: 65536 * (p2 as u32) + 256 * (p1 as u32) + p0 as u32,
    })
}
