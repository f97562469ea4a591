// The lines of entries that stand one behind the other.
ghost use Rattle.std.specs.Prelude.{◌≡◌, ◌+◌, ◌<◌, ◌≤◌, ◌++◌, length, take};
ghost use Rattle.pins.specs.Values.{level_of};
ghost use Rattle.lines.specs.Written.{Lined};
ghost use Rattle.lines.specs.Runs.{standing, standing_of, lines_at, line_count, HighGood, Added};
ghost use Rattle.lines.specs.Stamps.{last_four};
ghost use Rattle.lines.specs.Quick.{TailFits, TailOn, tail_part};

use crate::counters::Counters;
use crate::entries::put_line;
use crate::stamps::{Lead, PAIRS, Pairs};
use crate::tails::{Tail, bank_digit, high_of, level_with, tail_on};
use pins::{Front, Level};

// What all lines go by: whether the card has low clock-enable, whether it is of two parts, and a table, which is set up once for all of them.
#[derive(Clone, Copy)]
struct Writer {
    sleeps: bool,
    paired: bool,
    pairs: Pairs,
}

// What is kept from line to line: what the pins from CS_n up are where a line can be quick, the round counters, and the first digits of a stamp.
// `high` is no level, for speed: one comparison tests the level, the two parts and CS_n; a `Level` beside `paired` was tried, and takes six instructions more.
#[derive(Clone, Copy)]
struct Next {
    high: u32,
    counters: Counters,
    lead: Lead,
}

// What is read where no entry stands: `lines_at` gives a line there too.
const NO_ENTRY: Front = Front { stamp: 0, pins: 0 };

// Each part is put over what the part before it has no use for: the first digits, the end of the line with this digit, and between them the last four digits.
fn put_quick(out: &mut [u8], lead: Lead, four: [u8; 4], tail: Tail, digit: u8) -> usize
    requires { (64 ≤ length out.old) × (length four ≡ 4) × TailFits tail }
    ensures memory { Lined (take lead.size lead.text ++ four ++ tail_part tail digit) out.old out.new result }
    ensures small { result ≤ 24 }
{
    let front = lead.size + 4;
    let end = front + tail.size;
    out[..8].copy_from_slice(&lead.text);
    out[end - 8..end].copy_from_slice(&tail.text);
    out[end - 2] = digit;
    out[lead.size..front].copy_from_slice(&four);
    end
}

impl Writer {
    // Any entry, by what it is recorded as. `cold` is for the speed of the quick lines, which take 71 instructions with it and 78 without.
    #[cold]
    fn put_plain(&self, out: &mut [u8], next: &mut Next, front: Front) -> usize
        requires { 64 ≤ length out.old }
        ensures { Added self.now.sleeps self.now.paired next.old front.stamp front.pins out.old out.new next.new result }
    {
        let level = level_with(next.high);
        let whose = pins::whose_pins(self.paired, front.pins);
        let read = pins::read_pins(self.sleeps, self.paired, level, front.pins);
        let command = pins::recorded(read);
        let moved = pins::move_of(read);
        let size = put_line(out, front.stamp, command, whose, next.counters.of(whose));
        next.high = high_of(self.paired, pins::level_after(moved, level));
        next.counters = next.counters.after(whose, command, moved);
        next.lead.renew(front.stamp);
        size
    }

    // A command that has a tail is of one part, and leaves the level and the round counter as they are.
    fn put_entry(&self, out: &mut [u8], next: &mut Next, front: Front) -> usize
        requires { (64 ≤ length out.old) × HighGood self.now.paired next.old }
        ensures { Added self.now.sleeps self.now.paired next.old front.stamp front.pins out.old out.new next.new result }
    {
        let rest = front.stamp.wrapping_sub(next.lead.base);
        if rest < 10000
            && let Some(tail) = tail_on(front.pins, next.high)
        {
            put_quick(
                out,
                next.lead,
                self.pairs.last_four(rest),
                tail,
                bank_digit(front.pins),
            )
        } else {
            self.put_plain(out, next, front)
        }
    }
}

// The lines of so many entries of ten bytes each, one behind the other, as they were taken from this level and these round counters on (`counter` is part 0's,
// and the one part's; `second` is part 1's), where the card has low clock-enable (`sleeps`) or has not, and is of two parts (`paired`) or is not: as many of
// them as there are in `bytes` and as there is room for, 24 bytes each and 64 for the last. Eight arguments, and two flags among them, since it is public so.
pub fn entry_lines(
    out: &mut [u8],
    bytes: &[u8],
    count: usize,
    sleeps: bool,
    paired: bool,
    level: Level,
    counter: u8,
    second: u8,
) -> usize
    ensures { Lined (lines_at sleeps paired (line_count count (length bytes.now) (length out.old)) (standing (level_of level) counter second) bytes.now) out.old out.new result }
{
    let (entries, _) = bytes.as_chunks::<10>();
    let room = out.len().saturating_sub(40) / 24;
    let writer = Writer {
        sleeps,
        paired,
        pairs: PAIRS,
    };
    let mut next = Next {
        high: high_of(paired, level),
        counters: Counters {
            first: counter,
            second,
        },
        lead: Lead::of(1),
    };
    let mut at = 0;
    for entry in &entries[..count.min(entries.len()).min(room)] {
        let room = &mut out[at..];
        at += match pins::entry_at(entry, 0) {
            Some(front) => writer.put_entry(room, &mut next, front),
            None => writer.put_plain(room, &mut next, NO_ENTRY),
        };
    }
    at
}
