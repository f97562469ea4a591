// Rules 25 to 27: 12 to 14 from the other part's entries, each delay raised by the gap.
ghost use Rattle.std.specs.Prelude.{◌≡◌, cond, [], ◌∷◌};
ghost use Rattle.bounds.specs.Parts.{raised_after, answer_of, across_of};

use crate::answers::{Found, Kept};
use crate::delays::Delay;
use crate::kinds::{is_reading, is_writing};
use bank::Bus;
use card::Delays;
use pins::Command;

// The first cycle that an entry permits to the other part, where the rule asks for it; 0, which permits every cycle, where there is none.
#[tactic(auto, unfolding(crate::specs::Parts::raised_after, crate::specs::Parts::answer_of))]
fn beyond(wanted: bool, found: Option<Found>, delay: Delay, gap: u32) -> u64
    ensures { result ≡ cond wanted (raised_after delay.lag delay.clocks gap (answer_of found)) 0 }
{
    match found {
        Some(_) if wanted => delay.after(found) + u64::from(gap),
        _ => 0,
    }
}

#[tactic(auto, using(crate::proofs::Ruled::across_are), unfolding(crate::proofs::Ruled::opened))]
pub fn across(theirs: &Bus, delays: &Delays, command: Command) -> [u64; 3]
    ensures { result ≡ across_of theirs.now delays.now command 25 ∷ across_of theirs.now delays.now command 26 ∷ across_of theirs.now delays.now command 27 ∷ [] }
{
    let (reading, writing) = (is_reading(command), is_writing(command));
    let (rd, wr, turn) = (theirs.rd.latest(), theirs.wr.latest(), theirs.turn.latest());
    let burst = Delay::from(4);
    [
        beyond(reading, rd, burst, delays.gap).max(beyond(writing, wr, burst, delays.gap)),
        beyond(writing, turn, Delay::to_write(delays), delays.gap),
        beyond(reading, wr, Delay::to_read(delays), delays.gap),
    ]
}
