// The ledgers of both parts: 11 looks at each. That of a part which is not there stays as it is.
ghost use Rattle.std.specs.Prelude.{◌≡◌};
ghost use Rattle.rules.specs.Lent.{move_refusal, moved_on};
ghost use Rattle.card.specs.Values.{card_of};
ghost use Rattle.pins.specs.Values.{whose_of};
ghost use Rattle.ledger.specs.Values.{ledger_of, pace_of, effect_of, refusal_of, refused_as};
ghost use Rattle.bank.specs.Both.{ledgers_in, place_of, sooner_of, alone_as, JoinedAs, effect_for, PaidBy, EnteredOn, EnteredBoth};

use crate::{Ledgers, Paid, Record};
use card::Card;
use ledger::{After, Effect, Ledger, Pace, Refusal};
use pins::{Move, Whose};

// A function, since other crates call it.
#[tactic(auto, unfolding(crate::specs::Both::ledgers_in))]
pub fn ledgers_of(rec: Record) -> Ledgers
    ensures { result ≡ ledgers_in rec }
{
    Ledgers {
        first: rec.first.ledger,
        second: rec.second.ledger,
    }
}

// How early a refusal comes: 13, then 5, then 11 by its cycle. A derived order would look at the rule of an 11 before its cycle.
#[tactic(auto, unfolding(crate::specs::Both::place_of, rules::specs::Checks::refusal))]
fn place(refusal: Refusal) -> u128
    ensures { result ≡ place_of (refused_as refusal) }
{
    match refusal {
        Refusal::BadRecord => 0,
        Refusal::Earlier => 1,
        Refusal::Overdue { cycle, .. } => 2 + u128::from(cycle),
    }
}

// What two parts' ledgers answer: the refusal that comes sooner, where both come at once the first part's.
#[tactic(auto, unfolding(crate::specs::Both::sooner_of, crate::specs::Both::comes_before, ledger::specs::Values::refusal_of))]
fn sooner(first: Result<(), Refusal>, second: Result<(), Refusal>) -> Result<(), Refusal>
    ensures { refusal_of result ≡ sooner_of (refusal_of first) (refusal_of second) }
{
    match (first, second) {
        (Err(a), Err(b)) => Err(if place(b) < place(a) { b } else { a }),
        _ => first.and(second),
    }
}

// The ledgers go on where neither is refused.
#[tactic(auto, unfolding(ledger::specs::Values::refusal_of, ledger::specs::Values::unless_refused))]
fn joined(stood: Ledgers, first: After, second: After) -> Paid
    ensures { JoinedAs stood first second result }
{
    let answer = sooner(first.answer, second.answer);
    let ledgers = match answer {
        Ok(()) => Ledgers {
            first: first.ledger,
            second: second.ledger,
        },
        Err(_) => stood,
    };
    Paid { ledgers, answer }
}

// Of the one part.
fn alone(stood: Ledgers, first: After) -> Paid
    ensures { result ≡ alone_as stood first }
{
    Paid {
        ledgers: Ledgers {
            first: first.ledger,
            ..stood
        },
        answer: first.answer,
    }
}

// Moved on to a later cycle. Refused in this order: 13, 5, 11.
pub fn moved(ledgers: Ledgers, pace: Pace, card: Card, to: u32) -> Paid
    ensures { PaidBy card.paired (move_refusal (card_of card) (pace_of pace) (ledger_of ledgers.first) to) (move_refusal (card_of card) (pace_of pace) (ledger_of ledgers.second) to) ledgers (moved_on (card_of card) (pace_of pace) (ledger_of ledgers.first) to) (moved_on (card_of card) (pace_of pace) (ledger_of ledgers.second) to) result }
{
    let first = ledger::moved(ledgers.first, pace, card, to);
    if !card.paired {
        return alone(ledgers, first);
    }
    joined(
        ledgers,
        first,
        ledger::moved(ledgers.second, pace, card, to),
    )
}

// On a part whose own entry it is not it does nothing. `own` is what the entry is to each part: here, in `entered_on` and in `share_taken` both are asked alike.
#[tactic(auto, unfolding(crate::specs::Both::effect_for, rules::specs::Lent::no_effect, ledger::specs::Values::effect_of, pins::specs::Values::moved_of))]
fn effect_on(own: bool, effect: Effect) -> Effect
    ensures { effect_of result ≡ effect_for own (effect_of effect) }
{
    if own {
        return effect;
    }
    Effect {
        counted: false,
        sensed: false,
        moved: Move::Stays,
    }
}

fn entered_on(
    own: bool,
    ledger: Ledger,
    pace: Pace,
    card: Card,
    stamp: u32,
    effect: Effect,
) -> After
    ensures { EnteredOn own ledger pace card stamp (effect_of effect) result }
{
    ledger::entered(ledger, pace, card, stamp, effect_on(own, effect))
}

// Taken through the own cycle of an entry, of one part or of both. Refused in this order: 13, 5, 11 below the stamp, 11 at it.
pub fn entered(
    ledgers: Ledgers,
    pace: Pace,
    card: Card,
    whose: Whose,
    stamp: u32,
    effect: Effect,
) -> Paid
    ensures { EnteredBoth ledgers pace card (whose_of whose) stamp (effect_of effect) result }
{
    let of_first = pins::is_first(whose);
    let of_second = pins::is_second(whose);
    let first = entered_on(of_first, ledgers.first, pace, card, stamp, effect);
    if !card.paired {
        return alone(ledgers, first);
    }
    let second = entered_on(of_second, ledgers.second, pace, card, stamp, effect);
    joined(ledgers, first, second)
}
