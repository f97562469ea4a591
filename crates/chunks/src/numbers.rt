// A refusal in the documents' numbers.
ghost use Rattle.std.specs.Prelude.{◌≡◌};
ghost use Rattle.rules.specs.Checks.{refusal};
ghost use Rattle.card.specs.Tags.{number_of};
ghost use Rattle.ledger.specs.Values as paid;
ghost use Rattle.step.specs.Values as stepped;
ghost use Rattle.chunks.specs.Parts.{refusal_in, unread_as, verdict_at};

use crate::Verdict;
use card::{Misplaced, Unread};

// Rule and cycle are 0 where the documents tell none, as `verdict_of` reads them.
#[derive(Clone, Copy)]
pub struct Numbers {
    pub number: u8,
    pub rule: u8,
    pub cycle: u64,
}

impl Numbers {
    // Neither a rule nor a cycle is told.
    #[tactic(auto, unfolding(crate::specs::Parts::refusal_in))]
    pub fn only(number: u8) -> Numbers
        ensures { refusal_in result ≡ refusal number 0 0 }
    {
        Numbers {
            number,
            rule: 0,
            cycle: 0,
        }
    }

    #[tactic(auto, unfolding(crate::specs::Parts::verdict_at, crate::specs::Parts::refusal_in, rules::specs::Checks::refusal))]
    pub fn at(self, offset: u64) -> Verdict
        ensures { result ≡ verdict_at offset (refusal_in self) }
    {
        Verdict::Refused {
            number: self.number,
            rule: self.rule,
            offset,
            cycle: self.cycle,
        }
    }
}

#[tactic(auto, unfolding(card::specs::Tags::number_of))]
fn misplaced(why: Misplaced) -> u8
    ensures { result ≡ number_of why }
{
    match why {
        Misplaced::Unknown => 17,
        Misplaced::Passed => 18,
        Misplaced::Early => 19,
    }
}

// A card's field. The rule's place has the tag that is expected.
#[tactic(auto, unfolding(crate::specs::Parts::refusal_in, crate::specs::Parts::unread_as, card::specs::Tags::wrong_of))]
impl From<Unread> for Numbers {
    ghost from_gives = { λ unread numbers. refusal_in numbers ≡ unread_as unread };

    fn from(unread: Unread) -> Numbers {
        match unread {
            Unread::Tag(wrong) => Numbers {
                number: misplaced(wrong.why),
                rule: wrong.expected,
                cycle: 0,
            },
            Unread::Length => Numbers::only(3),
            Unread::Value => Numbers::only(4),
        }
    }
}

// An entry.
#[tactic(auto, unfolding(crate::specs::Parts::refusal_in, step::specs::Values::refused_as))]
impl From<step::Refusal> for Numbers {
    ghost from_gives = { λ unfit numbers. refusal_in numbers ≡ stepped.refused_as unfit };

    fn from(unfit: step::Refusal) -> Numbers {
        match unfit {
            step::Refusal::BadRecord => Numbers::only(13),
            step::Refusal::Early => Numbers::only(5),
            step::Refusal::Overdue { rule, cycle } => Numbers {
                number: 11,
                rule,
                cycle,
            },
            step::Refusal::WrongBits => Numbers::only(6),
            step::Refusal::Clash => Numbers::only(24),
            step::Refusal::Reserved => Numbers::only(7),
            step::Refusal::State => Numbers::only(8),
            step::Refusal::Barred => Numbers::only(16),
            step::Refusal::Value => Numbers::only(9),
            step::Refusal::Code => Numbers::only(26),
            step::Refusal::TooSoon { rule, cycle } => Numbers {
                number: 10,
                rule,
                cycle,
            },
        }
    }
}

// The end, whose refusals are some of an entry's.
impl From<ledger::Refusal> for Numbers {
    ghost from_gives = { λ unpaid numbers. refusal_in numbers ≡ paid.refused_as unpaid };

    fn from(unpaid: ledger::Refusal) -> Numbers {
        step::Refusal::from(unpaid).into()
    }
}
