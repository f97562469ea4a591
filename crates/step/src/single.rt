// A record of one part, without the share that is not looked at: what a run goes over, as its promise `RunsTo` leaves the other share out.
ghost use Rattle.std.specs.Prelude.{◌≡◌};
ghost use Rattle.step.specs.Single.{single_of, whole};

use bank::{Once, Record, Share};
use card::Card;
use ledger::Pace;

#[derive(Clone, Copy)]
pub struct Single {
    pub card: Card,
    pub last: Once,
    pub pace: Pace,
    pub share: Share,
}

// `of` beside `with`, which takes two: a `From` for one of them would part the pair.
impl Single {
    #[tactic(auto, unfolding(crate::specs::Single::single_of))]
    pub fn of(rec: Record) -> Single
        ensures { result ≡ single_of rec }
    {
        Single {
            card: rec.card,
            last: rec.last,
            pace: rec.pace,
            share: rec.first,
        }
    }

    // With the share that was not looked at.
    pub fn with(self, second: Share) -> Record
        ensures { result ≡ whole second self }
    {
        Record {
            card: self.card,
            last: self.last,
            pace: self.pace,
            first: self.share,
            second,
        }
    }
}
