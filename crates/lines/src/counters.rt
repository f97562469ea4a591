// The round counters of two parts; one part has the first.
ghost use Rattle.std.specs.Prelude.{◌≡◌, if◌then◌else◌};
ghost use Rattle.rules.specs.Whose.{is_of};
ghost use Rattle.pins.specs.Counter.{counter_on};
ghost use Rattle.pins.specs.Values.{command_of, moved_of, whose_of};
ghost use Rattle.lines.specs.Runs.{counter_for};

use pins::{Command, Move, Whose};

#[derive(Clone, Copy)]
pub struct Counters {
    pub first: u8,
    pub second: u8,
}

impl Counters {
    // That of the part that judges the entry.
    #[tactic(auto, unfolding(crate::specs::Runs::counter_for, rules::specs::Whose::part_of, pins::specs::Values::whose_of))]
    pub fn of(self, whose: Whose) -> u8
        ensures { result ≡ counter_for (whose_of whose) self.first self.second }
    {
        match whose {
            Whose::Second => self.second,
            Whose::Sole | Whose::First | Whose::Neither | Whose::Both => self.first,
        }
    }

    // Only the entry of a part changes that part's.
    pub fn after(self, whose: Whose, command: Command, moved: Move) -> Counters
        ensures first { result.first ≡ (if is_of 0 (whose_of whose) then counter_on (command_of command) (moved_of moved) self.first else self.first) }
        ensures second { result.second ≡ (if is_of 1 (whose_of whose) then counter_on (command_of command) (moved_of moved) self.second else self.second) }
    {
        let next = |own: bool, counter: u8| {
            if own {
                pins::counter_after(counter, command, moved)
            } else {
                counter
            }
        };
        Counters {
            first: next(pins::is_first(whose), self.first),
            second: next(pins::is_second(whose), self.second),
        }
    }
}
