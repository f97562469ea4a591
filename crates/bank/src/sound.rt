// What 13 says of a record.
ghost use Rattle.std.specs.Prelude.{◌≡◌};
ghost use Rattle.rules.specs.Lent as lent;
ghost use Rattle.card.specs.Values.{card_of};
ghost use Rattle.bank.specs.Clauses.{kept_at, each_by, four_by, latest_by, moves_by, rows_by, bus_by, data_by, note_at, notes_good};
ghost use Rattle.bank.specs.Values.{last_of, share_of, lent_of};

use crate::present::Present;
use crate::{Banks, Bus, Each, Four, Latest, Moves, NotedEach, Once, Record, Share};
use card::Card;

impl Once {
    // A stamp that is kept is not above the last entry's: None is below each, and where there is no last entry none is kept.
    #[tactic(auto, using(crate::proofs::Kept::kept_is))]
    fn bounds(self, stamp: Option<u32>) -> bool
        ensures { result ≡ kept_at self stamp }
    {
        stamp <= self.stamp()
    }

    // The last entry is not behind this cycle.
    #[tactic(auto, using(crate::proofs::Kept::last_is))]
    pub(crate) fn is_by(self, cycle: u32) -> bool
        ensures { result ≡ lent.last_by (last_of self) cycle }
    {
        self.stamp() <= Some(cycle)
    }
}

impl Each {
    fn kept_by(self, last: Once) -> bool
        ensures { result ≡ each_by last self.seen self.at }
    {
        (0..8).all(|bank| last.bounds(self.stamp(bank)))
    }
}

impl Four {
    fn kept_by(self, last: Once) -> bool
        ensures { result ≡ four_by last self }
    {
        self.at
            .iter()
            .take(usize::from(self.count))
            .all(|&at| last.bounds(Some(at)))
    }
}

impl Latest {
    // The PRE-all of all banks is looked at with the rows.
    #[tactic(auto, using(crate::proofs::Kept::seen), unfolding(crate::specs::Clauses::latest_by))]
    fn kept_by(self, last: Once) -> bool
        ensures { result ≡ latest_by last self }
    {
        last.bounds(self.mrw.stamp())
            && last.bounds(self.mrr.stamp())
            && last.bounds(self.refab.stamp())
            && last.bounds(self.refpb.stamp())
    }
}

impl Moves {
    #[tactic(auto, using(crate::proofs::Kept::seen), unfolding(crate::specs::Clauses::moves_by))]
    fn kept_by(self, last: Once) -> bool
        ensures { result ≡ moves_by last self }
    {
        last.bounds(self.fall.stamp())
            && last.bounds(self.power_exit.stamp())
            && last.bounds(self.self_exit.stamp())
    }
}

impl Bus {
    #[tactic(auto, using(crate::proofs::Kept::seen), unfolding(crate::specs::Clauses::bus_by))]
    fn kept_by(self, last: Once) -> bool
        ensures { result ≡ bus_by last self }
    {
        last.bounds(self.rd.stamp())
            && last.bounds(self.wr.stamp())
            && last.bounds(self.turn.stamp())
    }
}

impl Banks {
    // That a PRE outweighs a PRE-all, or is outweighed, hides no stamp here: what outweighs is later.
    #[tactic(auto, using(crate::proofs::Kept::seen), unfolding(crate::specs::Clauses::rows_by))]
    fn rows_kept_by(self, last: Once, prea: Once) -> bool
        ensures { result ≡ rows_by last self prea }
    {
        self.refpb.kept_by(last)
            && self.pre.kept_by(last)
            && last.bounds(prea.stamp())
            && self.act.kept_by(last)
    }

    #[tactic(auto, unfolding(crate::specs::Clauses::data_by))]
    fn data_kept_by(self, last: Once) -> bool
        ensures { result ≡ data_by last self }
    {
        self.rd.kept_by(last)
            && self.rda.kept_by(last)
            && self.wr.stamps().kept_by(last)
            && self.wra.stamps().kept_by(last)
    }
}

impl Present {
    #[tactic(auto, unfolding(crate::specs::Clauses::note_at))]
    fn fits(self, mr2: Option<u8>) -> bool
        ensures { result ≡ note_at self.period.0 mr2 }
    {
        mr2.is_none_or(|mr2| self.allows(mr2))
    }

    fn fits_each(self, x: NotedEach) -> bool
        ensures { result ≡ notes_good self.period.0 x.seen x.modes }
    {
        (0..8).all(|bank| self.fits(x.mr2(bank)))
    }
}

impl Share {
    #[tactic(auto, using(crate::proofs::Stored::stamps_are))]
    fn stamps_good(self, last: Once) -> bool
        ensures { result ≡ lent.stamps_good (last_of last) (share_of self) }
    {
        self.latest.kept_by(last)
            && self.banks.rows_kept_by(last, self.latest.prea)
            && self.four.kept_by(last)
            && self.bus.kept_by(last)
            && self.banks.data_kept_by(last)
            && self.moves.kept_by(last)
    }

    #[tactic(auto, using(crate::proofs::Stored::mr2s_are, crate::proofs::Kept::noted))]
    fn mr2s_good(self, card: Card) -> bool
        ensures { result ≡ lent.mr2s_good (card_of card) (share_of self) }
    {
        let period = card.period;
        let mr2 = self.modes.mr2;
        if !card::mr2_good(period, mr2) {
            return false;
        }
        let present = Present { period, mr2 };
        present.fits(self.bus.wr.mr2())
            && present.fits(self.bus.turn.mr2())
            && present.fits_each(self.banks.wr)
            && present.fits_each(self.banks.wra)
    }

    // The ledger's number has 8 added.
    #[tactic(auto, using(rules::proofs::Taken::owing_biased), unfolding(rules::specs::Lent::share_good, rules::specs::Lent::since_good, crate::specs::Values::share_of, ledger::specs::Values::ledger_of))]
    fn is_good(self, card: Card, last: Once) -> bool
        ensures { result ≡ lent.share_good (card_of card) (last_of last) (share_of self) }
    {
        self.mr2s_good(card)
            && self.ledger.owed <= 16
            && self.stamps_good(last)
            && last.is_by(self.ledger.at)
            && self.ledger.since <= ledger::number_of(self.ledger)
            && self.counter <= 7
    }
}

// Of every part that there is.
#[tactic(auto, using(crate::proofs::Thirteen::by_parts))]
pub fn good(rec: Record) -> bool
    ensures { result ≡ lent.lent_good (lent_of rec) }
{
    card::in_range(rec.card)
        && rec.first.is_good(rec.card, rec.last)
        && (!rec.card.paired || rec.second.is_good(rec.card, rec.last))
}
