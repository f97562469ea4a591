// A cycle from which on a command breaks no delay rule: only the rules that can speak for it are asked, each as if its entry had been there. An
// entry that comes earlier may be good all the same.
ghost use Rattle.std.specs.Prelude.{◌≡◌, ◌+◌, ◌-◌, ◌<◌};
ghost use Rattle.step.specs.Ready.{lane_in, slack, wrote, rd_cycle, wr_cycle, pre_cycle, idle_cycle, act_cycle, ready_by};

use crate::kinds::Hot;
use crate::waits::{Waits, after, top};
use bank::{Banks, Bus};
use card::Modes;

// What the record holds for the bank that a command names. Of its stamps only the two of writes have mode registers, so that pairs
// of both would be no plainer.
#[derive(Clone, Copy)]
pub struct Lane {
    pub opened: bool,
    pub refpb: u32,
    pub pre: u32,
    pub act: u32,
    pub rd: u32,
    pub rda: u32,
    pub wr: u32,
    pub wr_modes: Modes,
    pub wra: u32,
    pub wra_modes: Modes,
}

impl Lane {
    pub fn of(banks: &Banks, bank: usize) -> Lane
        requires { bank < 8 }
        ensures { result ≡ lane_in banks.now bank }
    {
        Lane {
            opened: banks.opened[bank],
            refpb: banks.refpb.at[bank],
            pre: banks.pre.at[bank],
            act: banks.act.at[bank],
            rd: banks.rd.at[bank],
            rda: banks.rda.at[bank],
            wr: banks.wr.at[bank],
            wr_modes: banks.wr.modes[bank],
            wra: banks.wra.at[bank],
            wra_modes: banks.wra.modes[bank],
        }
    }
}

// Rules 16 and 18 have two delays.
fn after_two(at: u32, one: u32, two: u32, more: u64) -> u64
    requires { more < 1000 }
    ensures { result ≡ at + (one + two) + more }
{
    u64::from(at) + (u64::from(one) + u64::from(two)) + more
}

impl Waits {
    // Enough for every MR2, where another one than the present was noted.
    fn slack(self, noted: u8) -> u64
        ensures { (result ≡ slack self noted) × (result < 33) }
    {
        if noted == self.mr2 { 0 } else { 32 }
    }

    // A delay after WR, with WL and the burst.
    fn after_wr(self, at: u32, delay: u32, noted: u8) -> u64
        ensures { result ≡ at + delay + wrote self noted }
    {
        after(at, delay) + (u64::from(self.wl) + 5 + self.slack(noted))
    }

    // Rule 13.
    fn after_turn(self, bus: Bus) -> u64
        ensures { result ≡ bus.turn.at + (self.rl + self.delays.tdqsck + 5 - self.wl) + slack self bus.turn.modes.mr2 }
    {
        let behind = u64::from(self.rl) + u64::from(self.delays.tdqsck) + 5;
        let turned = behind.saturating_sub(u64::from(self.wl));
        u64::from(bus.turn.at) + turned + self.slack(bus.turn.modes.mr2)
    }

    // Rules 7, 12 and 14.
    fn rd_cycle(self, lane: Lane, bus: Bus) -> u64
        ensures { result ≡ rd_cycle lane self self.delays bus }
    {
        self.whole
            .max(after(lane.act, self.delays.trcd))
            .max(after(bus.rd.at, 4))
            .max(self.after_wr(bus.wr.at, self.delays.twtr, bus.wr.modes.mr2))
    }

    // Rules 7, 12 and 13.
    fn wr_cycle(self, lane: Lane, bus: Bus) -> u64
        ensures { result ≡ wr_cycle lane self self.delays bus }
    {
        self.whole
            .max(after(lane.act, self.delays.trcd))
            .max(after(bus.wr.at, 4))
            .max(self.after_turn(bus))
    }

    // Rules 4, 8, 15 and 17.
    fn pre_cycle(self, lane: Lane) -> u64
        ensures { result ≡ pre_cycle lane self self.delays }
    {
        self.whole
            .max(after(lane.refpb, self.delays.trfcpb))
            .max(after(lane.act, self.delays.tras))
            .max(after(lane.rd, self.delays.trtp.max(4)))
            .max(self.after_wr(lane.wr, self.delays.twr, lane.wr_modes.mr2))
    }

    // Rules 4, 5, 9, 16 and 18.
    fn idle_cycle(self, lane: Lane) -> u64
        ensures { result ≡ idle_cycle lane self self.delays }
    {
        let d = self.delays;
        let lag = u64::from(self.wl) + 5 + self.slack(lane.wra_modes.mr2);
        let nwr = card::nwr_of(lane.wra_modes, d.twr);
        after(lane.refpb, d.trfcpb)
            .max(after(lane.pre, d.trppb))
            .max(after(lane.act, d.trc))
            .max(after_two(lane.rda, d.trtp.max(4), d.trppb, 0))
            .max(after_two(lane.wra, nwr, d.trppb, lag))
    }

    // And 10, 11.
    fn act_cycle(self, lane: Lane, acts: [u32; 8], fourth: u32) -> u64
        ensures { result ≡ act_cycle lane self self.delays acts fourth }
    {
        self.idle
            .max(self.idle_cycle(lane))
            .max(after(top(acts), self.delays.trrd))
            .max(after(fourth, self.delays.tfaw))
    }

    // The bank state and the delay rules.
    #[tactic(auto, unfolding(crate::specs::Ready::ready_by))]
    pub fn clears(
        self,
        kind: Hot,
        lane: Lane,
        bus: Bus,
        acts: [u32; 8],
        fourth: u32,
        stamp: u32,
    ) -> bool
        ensures { result ≡ ready_by kind lane self self.delays bus acts fourth stamp }
    {
        let stamp = u64::from(stamp);
        match kind {
            Hot::Nop => true,
            Hot::Act => !lane.opened && self.act_cycle(lane, acts, fourth) <= stamp,
            Hot::Rd => lane.opened && self.rd_cycle(lane, bus) <= stamp,
            Hot::Wr => lane.opened && self.wr_cycle(lane, bus) <= stamp,
            Hot::Pre => self.pre_cycle(lane) <= stamp,
            Hot::Cold => false,
        }
    }
}
