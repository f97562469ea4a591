// The quick run: entries over one record, as far as the quick test clears them.
ghost use Rattle.std.specs.Prelude.{◌≡◌, ◌&&◌, ◌*◌, min, ltb};
ghost use Rattle.step.specs.Ready.{stands_of};
ghost use Rattle.step.specs.Quick.{quick_of};

use crate::Ran;
use crate::cycles::Lane;
use crate::kinds::{bank_on, kind_on};
use crate::quick::Quick;
use crate::single::Single;
use crate::waits::Waits;
use card::Delays;
use pins::Front;

// Whether it may begin: the part is awake, and the ledger stands at the last entry, before its deadline, and has skipped no more cycles than there were.
#[tactic(auto, unfolding(crate::specs::Ready::stands_of))]
fn stands(rec: Single, end: u64) -> bool
    ensures { result ≡ (stands_of rec && ltb rec.last.at end) }
{
    let ledger = rec.share.ledger;
    rec.last.seen
        && ledger.at == rec.last.at
        && ledger.skipped <= ledger.at
        && pins::is_awake(ledger.level)
        && u64::from(rec.last.at) < end
}

// All three are asked.
fn passes(front: Front, last: u32, end: u64, ready: bool) -> bool
    ensures { result ≡ ((ltb last front.stamp && ltb front.stamp end) && ready) }
{
    (last < front.stamp) & (u64::from(front.stamp) < end) & ready
}

// As many bytes as so many entries have, or all.
fn most_bytes(most: usize, size: usize) -> usize
    ensures { result ≡ min (10 * most) size }
{
    most.saturating_mul(10).min(size)
}

// At most so many entries, up to the first that the quick test does not clear.
pub fn quick_run(rec: Single, delays: Delays, bytes: &[u8], most: usize) -> Ran<Single>
    ensures { result ≡ quick_of most delays rec bytes.now }
{
    let end = ledger::deadline(rec.share.ledger, rec.pace, rec.card);
    if !stands(rec, end) {
        return Ran::start(rec);
    }
    let waits = Waits::of(rec, delays);
    let mut quick = Quick::of(rec);
    let within = &bytes[..most_bytes(most, bytes.len())];
    // At place 0, which costs no test of the place.
    while let Some(front) = pins::entry_at(&within[quick.used..], 0) {
        let kind = kind_on(front.pins);
        let lane = Lane::of(&quick.banks, bank_on(front.pins));
        let acts = quick.banks.act.at;
        let fourth = quick.four.at[3];
        let clear = waits.clears(kind, lane, quick.bus, acts, fourth, front.stamp);
        if !passes(front, quick.last, end, clear) {
            break;
        }
        quick.take(kind, front, rec.share.modes);
    }
    quick.ended(rec)
}
