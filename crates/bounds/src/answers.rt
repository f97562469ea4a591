// How a record answers the questions of the delay rules.
ghost use Rattle.std.specs.Prelude.{◌≡◌, ℕ, List};
ghost use Rattle.std.proofs.Math.ListN.{get_elem?};
ghost use Rattle.rules.specs.Folds as folds;
ghost use Rattle.rules.specs.Registers as registers;
ghost use Rattle.rules.specs.Lent.{look_in};
ghost use Rattle.bank.specs.Values.{once, noted, each, noted_each, four, share_of};
ghost use Rattle.bounds.specs.Parts.{answer_of, unless_later, asked_for};

use bank::{Each, Four, Noted, NotedEach, Once, Share};
use card::Modes;

// What the rules ask (`ask_of`), as data that their table pairs with banks and a delay: the latest entry of a kind, or of a kind to one bank; the first of the
// four latest activations; the latest RD or MRR; the latest moves of clock-enable.
#[derive(Clone, Copy)]
pub enum Ask {
    Mrw,
    Mrr,
    Refab,
    Refpb,
    RefpbTo,
    PreTo,
    PreaTo,
    ActTo,
    FourthLast,
    Rd,
    Wr,
    RdOrMrr,
    RdTo,
    RdaTo,
    WrTo,
    WraTo,
    Fall,
    PowerExit,
    SelfExit,
}

// An entry's stamp, and the mode registers as they stood there.
#[derive(Clone, Copy)]
pub struct Found {
    pub at: u32,
    pub modes: Modes,
}

// The registers that the rules note of an entry where none of them goes by these (`unnoted`).
const UNNOTED: Modes = Modes {
    mr2: 0,
    programmed: false,
    mr1: 0,
};

// The latest entry of a kind, for all banks together, if there is one. What a record keeps is lent to `first_broken` as four plain types (`bank`), so each has its own look.
pub trait Kept {
    ghost kept: { Self → List (folds.Found registers.Modes) };

    fn latest(&self) -> Option<Found>
        ensures { answer_of result ≡ get_elem? (kept self.now) 0 };
}

impl Kept for Once {
    ghost kept = { once };

    #[tactic(auto, unfolding(crate::proofs::Kept::kept_opened))]
    fn latest(&self) -> Option<Found> {
        self.seen.then_some(Found {
            at: self.at,
            modes: UNNOTED,
        })
    }
}

impl Kept for Noted {
    ghost kept = { noted };

    #[tactic(auto, unfolding(crate::proofs::Kept::kept_opened))]
    fn latest(&self) -> Option<Found> {
        self.seen.then_some(Found {
            at: self.at,
            modes: self.modes,
        })
    }
}

// The latest entry of a kind to a bank, if there is one. A bank above 7 has none.
pub trait KeptByBank {
    ghost kept: { Self → ℕ → List (folds.Found registers.Modes) };

    fn latest_to(&self, bank: u8) -> Option<Found>
        ensures { answer_of result ≡ get_elem? (kept self.now bank) 0 };
}

impl KeptByBank for Each {
    ghost kept = { each };

    #[tactic(auto, unfolding(crate::proofs::Kept::kept_opened))]
    fn latest_to(&self, bank: u8) -> Option<Found> {
        let bank = usize::from(bank);
        if 7 < bank || !self.seen[bank] {
            return None;
        }
        Some(Found {
            at: self.at[bank],
            modes: UNNOTED,
        })
    }
}

impl KeptByBank for NotedEach {
    ghost kept = { noted_each };

    #[tactic(auto, unfolding(crate::proofs::Kept::kept_opened))]
    fn latest_to(&self, bank: u8) -> Option<Found> {
        let bank = usize::from(bank);
        if 7 < bank || !self.seen[bank] {
            return None;
        }
        Some(Found {
            at: self.at[bank],
            modes: self.modes[bank],
        })
    }
}

// A precharge counts unless one of the other kind came later.
#[tactic(auto, unfolding(crate::specs::Parts::answer_of, crate::specs::Parts::unless_later))]
fn unless_later(precharge: Option<Found>, other: Option<Found>) -> Option<Found>
    ensures { answer_of result ≡ unless_later (answer_of precharge) (answer_of other) }
{
    match (precharge, other) {
        (Some(x), Some(later)) if x.at < later.at => None,
        _ => precharge,
    }
}

#[tactic(auto, using(crate::proofs::Kept::fourth_kept))]
fn fourth(x: &Four) -> Option<Found>
    ensures { answer_of result ≡ get_elem? (four x.now) 3 }
{
    (4 <= x.count).then_some(Found {
        at: x.at[3],
        modes: UNNOTED,
    })
}

#[tactic(auto, using(crate::proofs::Kept::first_unless), unfolding(crate::proofs::Kept::opened))]
pub fn look(share: &Share, ask: Ask, bank: u8) -> Option<Found>
    ensures { answer_of result ≡ look_in (share_of share.now).history (asked_for ask bank) }
{
    let (latest, banks, bus, moves) = (&share.latest, &share.banks, &share.bus, &share.moves);
    match ask {
        Ask::Mrw => latest.mrw.latest(),
        Ask::Mrr => latest.mrr.latest(),
        Ask::Refab => latest.refab.latest(),
        Ask::Refpb => latest.refpb.latest(),
        Ask::RefpbTo => banks.refpb.latest_to(bank),
        Ask::PreTo => unless_later(banks.pre.latest_to(bank), latest.prea.latest()),
        Ask::PreaTo => unless_later(latest.prea.latest(), banks.pre.latest_to(bank)),
        Ask::ActTo => banks.act.latest_to(bank),
        Ask::FourthLast => fourth(&share.four),
        Ask::Rd => bus.rd.latest(),
        Ask::Wr => bus.wr.latest(),
        Ask::RdOrMrr => bus.turn.latest(),
        Ask::RdTo => banks.rd.latest_to(bank),
        Ask::RdaTo => banks.rda.latest_to(bank),
        Ask::WrTo => banks.wr.latest_to(bank),
        Ask::WraTo => banks.wra.latest_to(bank),
        Ask::Fall => moves.fall.latest(),
        Ask::PowerExit => moves.power_exit.latest(),
        Ask::SelfExit => moves.self_exit.latest(),
    }
}
