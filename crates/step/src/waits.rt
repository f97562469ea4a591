// What a quick run does not change, worked out once.
ghost use Rattle.std.specs.Prelude.{◌≡◌, ◌+◌};
ghost use Rattle.step.specs.Ready.{top_of, rested_of, woken_of, whole_of, waits_of};

use crate::single::Single;
use bank::{Latest, Moves};
use card::Delays;

// RL and WL by the present MR2; the first cycle by rules 1, 2, 3, 22 and 24; and with 6, and 10 after REFpb.
#[derive(Clone, Copy)]
pub struct Waits {
    pub mr2: u8,
    pub rl: u8,
    pub wl: u8,
    pub whole: u64,
    pub idle: u64,
    pub delays: Delays,
}

// The first cycle that a delay behind an entry lets.
pub fn after(at: u32, delay: u32) -> u64
    ensures { result ≡ at + delay }
{
    u64::from(at) + u64::from(delay)
}

// The latest stamp of the banks.
pub fn top(stamps: [u32; 8]) -> u32
    ensures { result ≡ top_of stamps }
{
    let low = stamps[0].max(stamps[1]).max(stamps[2].max(stamps[3]));
    let high = stamps[4].max(stamps[5]).max(stamps[6].max(stamps[7]));
    low.max(high)
}

// Rules 22 and 24.
fn woken(moves: Moves, delays: Delays) -> u64
    ensures { result ≡ woken_of delays moves }
{
    after(moves.power_exit.at, delays.txp).max(after(moves.self_exit.at, delays.txsr))
}

// Rules 1, 2 and 3.
fn rested(latest: Latest, delays: Delays) -> u64
    ensures { result ≡ rested_of delays latest }
{
    after(latest.mrw.at, delays.tmrw)
        .max(after(latest.mrr.at, delays.tmrr))
        .max(after(latest.refab.at, delays.trfcab))
}

impl Waits {
    fn whole(rec: Single, delays: Delays) -> u64
        ensures { result ≡ whole_of delays rec }
    {
        rested(rec.share.latest, delays).max(woken(rec.share.moves, delays))
    }

    pub fn of(rec: Single, delays: Delays) -> Waits
        ensures { result ≡ waits_of delays rec }
    {
        let mr2 = rec.share.modes.mr2;
        let latency = card::latency_of(mr2);
        let whole = Waits::whole(rec, delays);
        let prea = after(rec.share.latest.prea.at, delays.trpab);
        let refpb = after(top(rec.share.banks.refpb.at), delays.trrd);
        Waits {
            mr2,
            rl: latency.rl,
            wl: latency.wl,
            whole,
            idle: whole.max(prea.max(refpb)),
            delays,
        }
    }
}
