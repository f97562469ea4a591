// The stamp against the last entry's, and the refresh account.
ghost use Rattle.std.specs.Prelude.{◌≡◌};
ghost use Rattle.rules.specs.Past.{is_counted};
ghost use Rattle.rules.specs.Lent.{above_last};
ghost use Rattle.rules.specs.Lent as lent;
ghost use Rattle.pins.specs.Values.{command_of, read_of};
ghost use Rattle.ledger.specs.Values as paid;
ghost use Rattle.bank.specs.Values.{last_of};
ghost use Rattle.step.specs.Values.{refusal_of, refused_as};
ghost use Rattle.step.specs.Parts.{opening_of};

use crate::Refusal;
use bank::Once;
use ledger::Effect;
use pins::{Command, Read};

// By the fields: `bank` keeps its Option of a stamp to itself.
#[tactic(auto, unfolding(rules::specs::Lent::above_last, bank::specs::Values::last_of))]
pub fn rises(last: Once, stamp: u32) -> bool
    ensures { result ≡ above_last (last_of last) stamp }
{
    !last.seen || last.at < stamp
}

// Whether it is a counted refresh.
#[tactic(auto, using(pins::proofs::Unlisted::unlisted), unfolding(rules::specs::Past::is_counted, rules::specs::Commands::is, rules::specs::Commands::code, rules::specs::Commands::kind_of, rules::specs::Commands::carries, rules::specs::Commands::bare, pins::specs::Values::command_of))]
pub fn counts(command: Command, counter: u8) -> bool
    ensures { result ≡ is_counted (command_of command) counter }
{
    match command {
        Command::Refab => true,
        Command::Refpb => counter == 7,
        _ => false,
    }
}

// What an entry does to the ledger.
#[tactic(auto, using(crate::proofs::Paced::not_sensed), unfolding(ledger::specs::Values::effect_of, rules::specs::Lent::effect_of, rules::specs::Lent::is_there, rules::specs::Entries::mr4_of, pins::specs::Values::read_of))]
pub fn effect_of(read: Read, counter: u8) -> Effect
    ensures { paid.effect_of result ≡ lent.effect_of (read_of read) counter }
{
    Effect {
        counted: counts(pins::recorded(read), counter),
        sensed: matches!(read, Read::Sensed(_)),
        moved: pins::move_of(read),
    }
}

// Of what the account tells, all but an 11 at the stamp.
#[tactic(auto, unfolding(crate::specs::Values::refusal_of, ledger::specs::Values::refusal_of, crate::specs::Parts::opening_of, rules::specs::Folds::or_else, rules::specs::Checks::unless, rules::specs::Checks::refusal))]
pub fn opening(rises: bool, told: Result<(), ledger::Refusal>, stamp: u32) -> Result<(), Refusal>
    ensures { refusal_of result ≡ opening_of rises stamp (paid.refusal_of told) }
{
    match told {
        Err(ledger::Refusal::BadRecord) => Err(Refusal::BadRecord),
        Err(ledger::Refusal::Earlier) => Err(Refusal::Early),
        _ if !rises => Err(Refusal::Early),
        Err(ledger::Refusal::Overdue { rule, cycle }) if cycle < u64::from(stamp) => {
            Err(Refusal::Overdue { rule, cycle })
        }
        _ => Ok(()),
    }
}

// Why a ledger refuses, as a refusal of a step.
impl From<ledger::Refusal> for Refusal {
    ghost from_gives = { λ told given. refused_as given ≡ paid.refused_as told };

    fn from(told: ledger::Refusal) -> Refusal {
        match told {
            ledger::Refusal::BadRecord => Refusal::BadRecord,
            ledger::Refusal::Earlier => Refusal::Early,
            ledger::Refusal::Overdue { rule, cycle } => Refusal::Overdue { rule, cycle },
        }
    }
}

// What a ledger tells, as an answer of a step.
#[tactic(auto, unfolding(crate::specs::Values::refusal_of, ledger::specs::Values::refusal_of))]
pub fn as_told(told: Result<(), ledger::Refusal>) -> Result<(), Refusal>
    ensures { refusal_of result ≡ paid.refusal_of told }
{
    told.map_err(Refusal::from)
}
