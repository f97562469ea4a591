// A command, with its move of clock-enable, that comes to a part's share.
ghost use Rattle.std.specs.Prelude.{◌≡◌, [], ◌∷◌};
ghost use Rattle.rules.specs.Past.{bank_at};
ghost use Rattle.rules.specs.Delays.{without};
ghost use Rattle.rules.specs.Commands.{banks};
ghost use Rattle.rules.specs.Folds.{permitted_by};
ghost use Rattle.rules.specs.Lent.{look_in};
ghost use Rattle.rules.specs.Lists.{when};
ghost use Rattle.bank.specs.Values.{share_of};
ghost use Rattle.pins.specs.Values.{command_of};
ghost use Rattle.bounds.specs.Parts.{permitted_after, sources_of, asked_of, asked_for, banks_but};

use crate::answers::{Ask, look};
use crate::banks::{Banks, bank_at};
use crate::delays::Delay;
use bank::Share;
use card::Delays;
use pins::{Command, Move};

#[derive(Clone, Copy)]
pub struct Offer<'a> {
    pub share: &'a Share,
    pub delays: &'a Delays,
    pub command: Command,
    pub moved: Move,
}

impl Offer<'_> {
    // The bank that the command acts on.
    pub fn bank(&self) -> u8
        ensures { result ≡ bank_at (command_of self.now.command) self.now.share.now.counter }
    {
        bank_at(self.command, self.share.counter)
    }

    // That bank, where a rule speaks of the command.
    #[tactic(auto, using(crate::proofs::Spanned::own_if))]
    pub fn own_if(&self, wanted: bool) -> Option<Banks>
        ensures { asked_of result ≡ when wanted (bank_at (command_of self.now.command) self.now.share.now.counter ∷ []) }
    {
        wanted.then_some(Banks::One(self.bank()))
    }

    fn after_one(&self, ask: Ask, bank: u8, delay: Delay) -> u64
        ensures { result ≡ permitted_after delay.lag delay.clocks (look_in (share_of self.now.share.now).history (asked_for ask bank)) }
    {
        delay.after(look(self.share, ask, bank))
    }

    #[tactic(auto, using(crate::proofs::Spanned::by_bank))]
    fn after_all(&self, ask: Ask, but: Option<u8>, delay: Delay) -> u64
        ensures { result ≡ permitted_by (look_in (share_of self.now.share.now).history) (sources_of (banks_but but banks) ask delay.lag delay.clocks) }
    {
        let mut cycle = 0;
        for bank in 0..8u8 {
            if Some(bank) != but {
                cycle = cycle.max(self.after_one(ask, bank, delay));
            }
        }
        cycle
    }

    // The first cycle that the entries found for these banks permit; 0 where there are none.
    #[tactic(auto, using(crate::proofs::Spanned::one_asked), unfolding(crate::proofs::Spanned::asked_opened))]
    pub fn after(&self, ask: Ask, banks: Option<Banks>, delay: Delay) -> u64
        ensures { result ≡ permitted_by (look_in (share_of self.now.share.now).history) (sources_of (asked_of banks) ask delay.lag delay.clocks) }
    {
        match banks {
            Some(Banks::One(bank)) => self.after_one(ask, bank, delay),
            Some(Banks::Every) => self.after_all(ask, None, delay),
            Some(Banks::AllBut(own)) => self.after_all(ask, Some(own), delay),
            None => 0,
        }
    }
}
