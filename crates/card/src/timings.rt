// The delays of a card in clocks, by the temperature: n(x), tRC, I.
ghost use Rattle.std.specs.Prelude.{◌≡◌, ◌<◌};
ghost use Rattle.rules.specs.Units as paper;
ghost use Rattle.rules.specs.Heat.{hot_card, delays_at, interval_at};
ghost use Rattle.card.specs.Values.{card_of, clipped, clocks_of, shortened};
ghost use Rattle.card.specs.Parts.{raised_by, raised_in, raise_at, Timed};

use crate::heat::{is_hot, quarters};
use crate::units::Timing;
use crate::{Card, Clocks, Delays, Femtoseconds, Picoseconds};

// A card, and what is added to its first five durations: at any code of MR4 but the hottest that is nothing.
#[derive(Clone, Copy)]
struct Raised {
    card: Card,
    raise: u32,
}

impl Raised {
    #[tactic(auto, unfolding(crate::specs::Parts::raise_at))]
    fn at(card: Card, mr4: u8) -> Self
        ensures card { result.card ≡ card }
        ensures raise { result.raise ≡ raise_at card mr4 }
    {
        let raise = if is_hot(mr4) { card.raise } else { 0 };
        Raised { card, raise }
    }

    // The timing at this place of the two columns, the first five durations longer by the raise.
    #[tactic(auto, unfolding(crate::specs::Parts::raised_in, crate::specs::Values::timing_in, rules::specs::Heat::longer))]
    fn timing(self, i: usize) -> Timing
        requires { i < 18 }
        ensures { Timed self.card self.raise i result }
    {
        let raise = if i < 5 { self.raise } else { 0 };
        Timing {
            duration: Picoseconds(u64::from(self.card.durations[i]) + u64::from(raise)),
            floor: Clocks::from(self.card.floors[i]),
        }
    }

    // n(x)
    #[tactic(auto, unfolding(rules::specs::Units::n, crate::specs::Values::card_of))]
    fn clocks(self, i: usize) -> u32
        requires { i < 18 }
        ensures { result ≡ clipped (paper.n (card_of self.card) (raised_in self.card self.raise i)) }
    {
        self.timing(i).least_clocks(self.card.period).clipped()
    }

    // tRAS and tRPpb as one timing: both durations, each raised, and both floors summed.
    #[tactic(auto, unfolding(rules::specs::Units::row_cycle, rules::specs::Heat::hot_card, rules::specs::Heat::longer, crate::specs::Values::timing_in, crate::specs::Values::card_of, crate::specs::Parts::raised_by, crate::specs::Parts::raised_in))]
    fn joined_clocks(self) -> Clocks
        ensures { result.0 ≡ paper.row_cycle (hot_card (card_of (raised_by self.raise self.card))) }
    {
        let ras = self.timing(3);
        let rp = self.timing(1);
        let both = Timing {
            duration: Picoseconds(ras.duration.0 + rp.duration.0),
            floor: Clocks(ras.floor.0 + rp.floor.0),
        };
        both.least_clocks(self.card.period)
    }

    // tRC
    fn row_cycle(self) -> u32
        ensures { result ≡ clipped (paper.row_cycle (hot_card (card_of (raised_by self.raise self.card)))) }
    {
        self.joined_clocks().clipped()
    }

    fn delays(self) -> Delays
        ensures { clocks_of result ≡ shortened (paper.delays_of (hot_card (card_of (raised_by self.raise self.card)))) }
    {
        Delays {
            trcd: self.clocks(0),
            trppb: self.clocks(1),
            trpab: self.clocks(2),
            tras: self.clocks(3),
            trc: self.row_cycle(),
            trrd: self.clocks(4),
            tfaw: self.clocks(5),
            trtp: self.clocks(6),
            twr: self.clocks(7),
            twtr: self.clocks(8),
            tdqsck: self.clocks(9),
            trfcab: self.clocks(10),
            trfcpb: self.clocks(11),
            tmrr: self.clocks(12),
            tmrw: self.clocks(13),
            tcke: self.clocks(14),
            txp: self.clocks(15),
            tckesr: self.clocks(16),
            txsr: self.clocks(17),
            gap: u32::from(self.card.gap),
        }
    }
}

// The delays with this value of MR4 in force.
#[tactic(auto, using(crate::proofs::Columns::delays_by))]
pub fn delays_at(card: Card, mr4: u8) -> Delays
    ensures { clocks_of result ≡ shortened (delays_at (card_of card) mr4) }
{
    Raised::at(card, mr4).delays()
}

// I: the factor goes in before the rounding. A quarter of a picosecond is 250 femtoseconds.
pub fn interval_at(card: Card, mr4: u8) -> u64
    ensures { result ≡ interval_at (card_of card) mr4 }
{
    let refi = Femtoseconds(250 * (u64::from(card.trefi) * quarters(mr4)));
    refi.whole_periods(card.period).0.max(1)
}
