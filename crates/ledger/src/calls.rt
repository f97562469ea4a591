// What a lent ledger is asked, with a card: 13, 5, then the account.
ghost use Rattle.std.specs.Prelude.{◌≡◌};
ghost use Rattle.rules.specs.Checks.{unless};
ghost use Rattle.rules.specs.Lent.{beat_of, move_refusal, enter_refusal, moved_on};
ghost use Rattle.rules.specs.Lent as lent;
ghost use Rattle.card.specs.Values.{card_of};
ghost use Rattle.ledger.specs.Values.{ledger_of, pace_of, effect_of, Left, deadline_of};
ghost use Rattle.ledger.specs.Parts.{admission, Checked, Opened, after_of};

use crate::account::Account;
use crate::{After, Effect, Ledger, Pace, Refusal, moving, pacing};
use card::Card;

// The account of a ledger, where 13 lets it and its card pass. Ledger, pace and card go one by one, since `moved` and `entered` are public so.
fn sound(ledger: Ledger, pace: Pace, card: Card) -> Result<Account, Refusal>
    ensures { Checked (unless (lent.ledger_good (card_of card) (ledger_of ledger)) 13) (Opened (card_of card) (pace_of pace) ledger) result }
{
    if card::in_range(card) && ledger.owed <= 16 && ledger.since <= moving::number_of(ledger) {
        let beat = pacing::beat_of(pace, card);
        Ok(Account { ledger, beat })
    } else {
        Err(Refusal::BadRecord)
    }
}

// And where it may be asked about this cycle.
fn asked(ledger: Ledger, pace: Pace, card: Card, to: u32) -> Result<Account, Refusal>
    ensures { Checked (admission (card_of card) (ledger_of ledger) to) (Opened (card_of card) (pace_of pace) ledger) result }
{
    let account = sound(ledger, pace, card)?;
    if to < ledger.at {
        return Err(Refusal::Earlier);
    }
    Ok(account)
}

// The ledger moved on; the cycle it stands at changes nothing.
fn try_move(ledger: Ledger, pace: Pace, card: Card, to: u32) -> Result<Ledger, Refusal>
    ensures { Checked (move_refusal (card_of card) (pace_of pace) (ledger_of ledger) to) (λ then. ledger_of then ≡ moved_on (card_of card) (pace_of pace) (ledger_of ledger) to) result }
{
    asked(ledger, pace, card, to)?.reach(to, u64::from(to) + 1)
}

// The ledger taken through an entry's own cycle.
fn try_enter(
    ledger: Ledger,
    pace: Pace,
    card: Card,
    stamp: u32,
    effect: Effect,
) -> Result<Ledger, Refusal>
    ensures { Checked (enter_refusal (effect_of effect) (card_of card) (pace_of pace) (ledger_of ledger) stamp) (λ then. ledger_of then ≡ lent.entered (effect_of effect) (beat_of (card_of card) (pace_of pace)) (ledger_of ledger) stamp) result }
{
    asked(ledger, pace, card, stamp)?.enter(stamp, effect)
}

// What a caller is told: the ledger is as it was, where it is refused.
fn told(ledger: Ledger, then: Result<Ledger, Refusal>) -> After
    ensures { result ≡ after_of ledger then }
{
    match then {
        Ok(then) => After {
            ledger: then,
            answer: Ok(()),
        },
        Err(refusal) => After {
            ledger,
            answer: Err(refusal),
        },
    }
}

// Moved on to a later cycle; the cycle it stands at changes nothing. Refused in this order: 13, 5, 11.
pub fn moved(ledger: Ledger, pace: Pace, card: Card, to: u32) -> After
    ensures { Left (move_refusal (card_of card) (pace_of pace) (ledger_of ledger) to) (ledger_of ledger) (moved_on (card_of card) (pace_of pace) (ledger_of ledger) to) result }
{
    told(ledger, try_move(ledger, pace, card, to))
}

// An entry's own cycle: what is due at this pace, a counted refresh or a temperature if it is one, then 19 and 20; and the level from there on. Refused in
// this order: 13, 5, 11 below the stamp, 11 at it.
pub fn entered(ledger: Ledger, pace: Pace, card: Card, stamp: u32, effect: Effect) -> After
    ensures { Left (enter_refusal (effect_of effect) (card_of card) (pace_of pace) (ledger_of ledger) stamp) (ledger_of ledger) (lent.entered (effect_of effect) (beat_of (card_of card) (pace_of pace)) (ledger_of ledger) stamp) result }
{
    told(ledger, try_enter(ledger, pace, card, stamp, effect))
}

// The first cycle at which 19 or 20 fails with no counted refresh; 0 where 13 refuses the ledger or its card, and where the cycles of its level are not
// counted: 0 and not `None`, as `deadline_of` has it.
pub fn deadline(ledger: Ledger, pace: Pace, card: Card) -> u64
    ensures { result ≡ deadline_of card pace ledger }
{
    let Ok(account) = sound(ledger, pace, card) else {
        return 0;
    };
    match account.first_failing() {
        Some(first) => first.cycle,
        None => 0,
    }
}
