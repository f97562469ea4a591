// Document 01's bench card, which has no tag above 18.
ghost use Rattle.std.specs.Prelude.{◌≡◌};
ghost use Rattle.card.specs.Bench.{bench_card};

use crate::{Card, Femtoseconds};

#[tactic(auto, unfolding(crate::specs::Bench::bench_card))]
pub fn bench() -> Card
    ensures { result ≡ bench_card }
{
    Card {
        period: Femtoseconds(1_250_000),
        mr2: 0x1a,
        groups: 8192,
        trefi: 3900000,
        durations: [
            18000, 18000, 21000, 42000, 10000, 50000, 7500, 15000, 7500, 5500, 130000, 60000, 0, 0,
            0, 0, 0, 0,
        ],
        floors: [3, 3, 3, 3, 2, 8, 4, 4, 4, 0, 0, 0, 4, 10, 0, 0, 0, 0],
        ..Card::default()
    }
}
