// A flag and the value beside it as an Option. A record lends them as four types (`share_of`), so each has its own look.
ghost use Rattle.std.specs.Prelude.{◌≡◌, ◌<◌};
ghost use Rattle.std.specs.Bool.{then_some};
ghost use Rattle.bank.specs.Clauses.{stamp_at, stamps_of, mr2_at};

use crate::{Each, Noted, NotedEach, Once};

impl Once {
    pub(crate) fn stamp(self) -> Option<u32>
        ensures { result ≡ then_some self.seen self.at }
    {
        self.seen.then_some(self.at)
    }
}

impl Noted {
    pub(crate) fn stamp(self) -> Option<u32>
        ensures { result ≡ then_some self.seen self.at }
    {
        self.seen.then_some(self.at)
    }

    // The MR2 value there.
    pub(crate) fn mr2(self) -> Option<u8>
        ensures { result ≡ then_some self.seen self.modes.mr2 }
    {
        self.seen.then_some(self.modes.mr2)
    }
}

impl Each {
    #[tactic(auto, unfolding(crate::specs::Clauses::stamp_at))]
    pub(crate) fn stamp(self, bank: usize) -> Option<u32>
        requires { bank < 8 }
        ensures { result ≡ stamp_at self bank }
    {
        self.seen[bank].then_some(self.at[bank])
    }
}

impl NotedEach {
    pub(crate) fn stamps(self) -> Each
        ensures { result ≡ stamps_of self }
    {
        let NotedEach { seen, at, .. } = self;
        Each { seen, at }
    }

    // The MR2 value there.
    #[tactic(auto, unfolding(crate::specs::Clauses::mr2_at))]
    pub(crate) fn mr2(self, bank: usize) -> Option<u8>
        requires { bank < 8 }
        ensures { result ≡ mr2_at self bank }
    {
        self.seen[bank].then_some(self.modes[bank].mr2)
    }
}
