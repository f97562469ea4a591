// Durations in picoseconds, the period in femtoseconds, lengths in clocks, and the one rounding that turns the first, with the period, into the last.
ghost use Rattle.std.specs.Prelude.{◌≡◌, ◌+◌, ◌/◌, ◌<◌, ◌^◌, max};
ghost use Rattle.rules.specs.Units.{femto, rounded_up};
ghost use Rattle.card.specs.Values.{clipped};

use crate::{Clocks, Femtoseconds, Picoseconds};

impl From<u32> for Picoseconds {
    ghost from_gives = { λ ps duration. (duration.0 ≡ ps) × (duration.0 < 2 ^ 32) };

    fn from(ps: u32) -> Self {
        Picoseconds(u64::from(ps))
    }
}

impl Picoseconds {
    // What is divided by the period or held against it is taken in its unit.
    #[tactic(auto, unfolding(rules::specs::Units::femto))]
    pub(crate) fn femtoseconds(self) -> Femtoseconds
        requires { self.0 < 2 ^ 54 }
        ensures { result.0 ≡ femto self.0 }
    {
        Femtoseconds(1000 * self.0)
    }
}

impl Femtoseconds {
    // One period more for what is left over; 0 where the period is 0, as the rules' division has it.
    #[tactic(auto, using(crate::proofs::Rounded::by_zero, crate::proofs::Rounded::by_ceil))]
    pub(crate) fn rounded_up(self, period: Femtoseconds) -> Clocks
        ensures { result.0 ≡ rounded_up self.0 period.0 }
    {
        if period.0 == 0 {
            Clocks(0)
        } else {
            Clocks(self.0.div_ceil(period.0))
        }
    }

    // The whole periods within a duration: one fewer than a femtosecond more needs; 0 where the period is 0, as the rules' division has it.
    #[tactic(auto, using(rules::proofs::Rounding::rounded_whole))]
    pub(crate) fn whole_periods(self, period: Femtoseconds) -> Clocks
        requires { self.0 + 1 < 2 ^ 64 }
        ensures { result.0 ≡ self.0 / period.0 }
    {
        let over = Femtoseconds(self.0 + 1).rounded_up(period);
        Clocks(over.0.saturating_sub(1))
    }
}

impl From<u8> for Clocks {
    ghost from_gives = { λ n clocks. clocks.0 ≡ n };

    fn from(n: u8) -> Self {
        Clocks(u64::from(n))
    }
}

impl Clocks {
    // The most that 32 bits hold stands for anything beyond.
    pub(crate) fn clipped(self) -> u32
        ensures { result ≡ clipped self.0 }
    {
        u32::try_from(self.0).unwrap_or(u32::MAX)
    }
}

#[derive(Clone, Copy)]
pub struct Timing {
    pub duration: Picoseconds,
    pub floor: Clocks,
}

impl Timing {
    // The greater of the floor and the duration over the period, rounded up.
    pub(crate) fn least_clocks(self, period: Femtoseconds) -> Clocks
        requires { self.duration.0 < 2 ^ 54 }
        ensures { result.0 ≡ max self.floor.0 (rounded_up (femto self.duration.0) period.0) }
    {
        let n = self.duration.femtoseconds().rounded_up(period);
        Clocks(self.floor.0.max(n.0))
    }
}

pub fn greater(a: u64, b: u64) -> u64
    ensures { result ≡ max a b }
{
    a.max(b)
}
