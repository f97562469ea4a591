// A temperature: what a value of MR4 that was read back is at a level, and whose it is.
ghost use Rattle.std.specs.Prelude.{ℕ, ◌≡◌};
ghost use Rattle.rules.specs.Levels as rules;
ghost use Rattle.rules.specs.Entries as entries;
ghost use Rattle.pins.specs.Values.{level_of, read_of, whose_of, ReadAs};

use crate::{Level, Read, Whose};

// One part with low clock-enable does not take it after deep power-down.
#[tactic(auto, using(crate::proofs::Tempered::sensed_as, crate::proofs::Tempered::barred_as))]
pub fn read_mr4(sleeps: bool, paired: bool, level: Level, mr4: u8) -> Read
    ensures { ReadAs (rules.read_mr4 sleeps paired (level_of level) mr4) result }
{
    match (sleeps, paired, level) {
        (true, false, Level::Deep) => Read::Barred,
        _ => Read::Sensed(mr4),
    }
}

// Whatever its value.
#[tactic(auto, unfolding(rules::specs::Entries::whose_body, crate::specs::Values::whose_of))]
pub fn whose_mr4(paired: bool) -> Whose
    ensures { (v : ℕ) → whose_of result ≡ entries.whose_body paired (entries.mr4 v) }
{
    if paired { Whose::Both } else { Whose::Sole }
}
