// What the table asks of a move of clock-enable.
ghost use Rattle.std.specs.Prelude.{◌≡◌};
ghost use Rattle.rules.specs.Levels.{is_fall, is_rise};
ghost use Rattle.pins.specs.Values.{moved_of};

use pins::Move;

#[tactic(auto, unfolding(rules::specs::Levels::is_fall, pins::specs::Values::moved_of))]
pub fn falls(moved: Move) -> bool
    ensures { result ≡ is_fall (moved_of moved) }
{
    matches!(moved, Move::Falls(_))
}

#[tactic(auto, unfolding(rules::specs::Levels::is_rise, pins::specs::Values::moved_of))]
pub fn rises(moved: Move) -> bool
    ensures { result ≡ is_rise (moved_of moved) }
{
    matches!(moved, Move::Rises(_))
}
