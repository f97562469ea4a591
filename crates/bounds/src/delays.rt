// What an entry that was found permits.
ghost use Rattle.std.specs.Prelude.{◌≡◌, ◌+◌, ◌<◌, ◌^◌};

use crate::answers::Found;
use card::{Delays, Modes};

// What the mode registers as at the entry make of a delay: nothing; WL is added; RL is added and WL taken off; WL and nWR are added, n(tWR), which it holds,
// where none is programmed.
#[derive(Clone, Copy)]
pub enum Lag {
    Plain,
    Written,
    Turned,
    Recovered(u32),
}

// So many clocks behind an entry, and what the lag makes of them.
#[derive(Clone, Copy)]
pub struct Delay {
    pub lag: Lag,
    pub clocks: u64,
    ghost small: { clocks < 2 ^ 40 },
}

impl From<u32> for Delay {
    ghost use Rattle.bounds.specs.declared.delays.Lag.TheVariants.{Plain};

    ghost from_gives = { λ clocks delay. (delay.lag ≡ Plain) × (delay.clocks ≡ clocks) };

    fn from(clocks: u32) -> Self {
        Delay {
            lag: Lag::Plain,
            clocks: u64::from(clocks),
        }
    }
}

impl Delay {
    ghost use Rattle.card.specs.Values.{modes_of};
    ghost use Rattle.bounds.specs.declared.delays.Lag.TheVariants.{Turned, Written};
    ghost use Rattle.bounds.specs.Parts.{delay_in, permitted_after, answer_of};

    // Of both numbers of clocks together.
    pub fn new(lag: Lag, clocks: u32, more: u32) -> Self
        ensures { (result.lag ≡ lag) × (result.clocks ≡ clocks + more) }
    {
        Delay {
            lag,
            clocks: u64::from(clocks) + u64::from(more),
        }
    }

    // From RD or MRR to WR, and from WR to RD or MRR: rules 13 and 14 of the own part's entries, 26 and 27 of the other's.
    pub fn to_write(delays: &Delays) -> Self
        ensures { (result.lag ≡ Turned) × (result.clocks ≡ delays.now.tdqsck + 5) }
    {
        Delay::new(Lag::Turned, delays.tdqsck, 5)
    }

    pub fn to_read(delays: &Delays) -> Self
        ensures { (result.lag ≡ Written) × (result.clocks ≡ 5 + delays.now.twtr) }
    {
        Delay::new(Lag::Written, 5, delays.twtr)
    }

    // The clocks behind an entry with these mode registers.
    #[tactic(auto, unfolding(crate::specs::Parts::delay_in, card::specs::Values::modes_of))]
    fn clocks_under(self, modes: Modes) -> u64
        ensures { (result ≡ delay_in self.lag self.clocks (modes_of modes)) × (result < 2 ^ 41) }
    {
        let latency = card::latency_of(modes.mr2);
        let (rl, wl) = (u64::from(latency.rl), u64::from(latency.wl));
        match self.lag {
            Lag::Plain => self.clocks,
            Lag::Written => wl + self.clocks,
            Lag::Turned => (rl + self.clocks).saturating_sub(wl),
            Lag::Recovered(twr) => wl + u64::from(card::nwr_of(modes, twr)) + self.clocks,
        }
    }

    // The first cycle that the entry permits; 0 where there is none.
    #[tactic(auto, unfolding(crate::specs::Parts::permitted_after, crate::specs::Parts::answer_of))]
    pub fn after(self, found: Option<Found>) -> u64
        ensures { (result ≡ permitted_after self.lag self.clocks (answer_of found)) × (result < 2 ^ 42) }
    {
        match found {
            Some(entry) => u64::from(entry.at) + self.clocks_under(entry.modes),
            None => 0,
        }
    }
}
