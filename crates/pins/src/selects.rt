// Whose an entry is, by the two CS_n.
ghost use Rattle.std.specs.Prelude.{◌≡◌};
ghost use Rattle.rules.specs.Whose as rules;
ghost use Rattle.pins.specs.Values.{whose_of};

use crate::{Whose, bits};

#[tactic(auto, unfolding(rules::specs::Whose::whose, rules::specs::Whose::by_selects, crate::specs::Values::whose_of))]
pub fn whose_pins(paired: bool, pins: u32) -> Whose
    ensures { whose_of result ≡ rules.whose paired pins }
{
    if !paired {
        return Whose::Sole;
    }
    let first_high = bits::is_on(pins, bits::FIRST_SELECT);
    let second_high = bits::is_on(pins, bits::SECOND_SELECT);
    match (first_high, second_high) {
        (false, true) => Whose::First,
        (true, false) => Whose::Second,
        _ => Whose::Neither,
    }
}

// Among the own entries of the first part, or of the one part. It and `is_second` are a pattern each: one function of a part's number would be no plainer.
#[tactic(auto, unfolding(rules::specs::Whose::is_of, crate::specs::Values::whose_of))]
pub fn is_first(whose: Whose) -> bool
    ensures { result ≡ rules.is_of 0 (whose_of whose) }
{
    matches!(whose, Whose::Sole | Whose::First | Whose::Both)
}

#[tactic(auto, unfolding(rules::specs::Whose::is_of, crate::specs::Values::whose_of))]
pub fn is_second(whose: Whose) -> bool
    ensures { result ≡ rules.is_of 1 (whose_of whose) }
{
    matches!(whose, Whose::Second | Whose::Both)
}
