// The pins, both CS_n, the bank state, what is permitted at the level, and the values of MRW and of MR4: 6, 24, 7, 8, 16, 9, 26.
ghost use Rattle.std.specs.Prelude.{◌≡◌, false, get_or};
ghost use Rattle.rules.specs.States.{all_closed, state_good};
ghost use Rattle.rules.specs.Checks.{value_good};
ghost use Rattle.card.specs.Values.{card_of};
ghost use Rattle.pins.specs.Values.{command_of, read_of};
ghost use Rattle.step.specs.Values.{refusal_of};
ghost use Rattle.step.specs.Parts.{command_refusal, reading_refusal, undecoded_as};

use crate::Refusal;
use card::Card;
use pins::{Command, Read, Undecoded};

// What the bank state is asked of goes by value, the open flags and the round counter: a share that holds both would be copied whole.
// A bank above 7 is not open.
fn is_open(opened: [bool; 8], bank: u8) -> bool
    ensures { result ≡ get_or opened bank false }
{
    opened.get(usize::from(bank)).copied().unwrap_or(false)
}

fn all_closed(opened: [bool; 8]) -> bool
    ensures { result ≡ all_closed (λ b. get_or opened b false) }
{
    !opened.contains(&true)
}

#[tactic(auto, unfolding(rules::specs::States::state_good, rules::specs::States::goes, rules::specs::Past::bank_at, rules::specs::Commands::bank_of, rules::specs::Commands::is, rules::specs::Commands::code, rules::specs::Commands::kind_of, rules::specs::Commands::carries, rules::specs::Commands::bare, pins::specs::Values::command_of))]
fn state_good(opened: [bool; 8], counter: u8, command: Command) -> bool
    ensures { result ≡ state_good (λ b. get_or opened b false) counter (command_of command) }
{
    match command {
        Command::Act { bank, .. } => !is_open(opened, bank),
        Command::Rd { bank, .. } | Command::Wr { bank, .. } => is_open(opened, bank),
        Command::Refpb => !is_open(opened, counter),
        Command::Refab | Command::Mrw { .. } => all_closed(opened),
        Command::Mrr { .. } | Command::Pre { .. } | Command::Prea | Command::Nop => true,
    }
}

#[tactic(auto, using(pins::proofs::Unlisted::unlisted), unfolding(rules::specs::Checks::value_good, rules::specs::Commands::is, rules::specs::Commands::code, rules::specs::Commands::kind_of, rules::specs::Commands::carries, rules::specs::Commands::bare, pins::specs::Values::command_of, card::specs::Values::card_of))]
fn value_good(card: Card, command: Command) -> bool
    ensures { result ≡ value_good (card_of card) (command_of command) }
{
    match command {
        Command::Mrw { ma, op } => card::mrw_value_good(card.period, ma, op),
        _ => true,
    }
}

// 8, then 9.
#[tactic(auto, unfolding(crate::specs::Values::refusal_of, crate::specs::Parts::command_refusal, rules::specs::Folds::first_of, rules::specs::Folds::or_else, rules::specs::Checks::unless))]
fn command_refused(
    card: Card,
    opened: [bool; 8],
    counter: u8,
    command: Command,
) -> Result<(), Refusal>
    ensures { refusal_of result ≡ command_refusal (card_of card) (λ b. get_or opened b false) counter (command_of command) }
{
    if !state_good(opened, counter, command) {
        return Err(Refusal::State);
    }
    if !value_good(card, command) {
        return Err(Refusal::Value);
    }
    Ok(())
}

// What pins are told that are no command.
impl From<Undecoded> for Refusal {
    ghost from_gives = { λ why given. given ≡ undecoded_as why };

    #[tactic(auto, unfolding(crate::specs::Parts::undecoded_as))]
    fn from(why: Undecoded) -> Refusal {
        match why {
            Undecoded::WrongBits => Refusal::WrongBits,
            Undecoded::Reserved => Refusal::Reserved,
        }
    }
}

pub fn reading(card: Card, opened: [bool; 8], counter: u8, read: Read) -> Result<(), Refusal>
    ensures { refusal_of result ≡ reading_refusal (card_of card) (λ b. get_or opened b false) counter (read_of read) }
{
    match read {
        Read::Plain(decoded) => command_refused(card, opened, counter, decoded?),
        Read::Moved(_) => command_refused(card, opened, counter, pins::judged(read)),
        Read::Asleep => Ok(()),
        Read::Barred => Err(Refusal::Barred),
        Read::Clash => Err(Refusal::Clash),
        Read::Sensed(mr4) if !card::mr4_good(mr4) => Err(Refusal::Code),
        Read::Sensed(_) => Ok(()),
    }
}
