// The line of a verdict.
ghost use Rattle.rules.specs.Lines.{verdict_line};
ghost use Rattle.lines.specs.Written.{Written};
ghost use Rattle.chunks.specs.Values.{verdict_of};

use crate::Verdict;

// At the start of the slice, where that has room for any line: 64 bytes.
#[tactic(auto, unfolding(crate::specs::Values::verdict_of))]
pub fn verdict_line(out: &mut [u8], verdict: Verdict) -> usize
    ensures { Written (verdict_line (verdict_of verdict)) out.old out.new result }
{
    match verdict {
        Verdict::Accepted {
            commands,
            refreshes,
            owed,
        } => lines::accepted_line(out, commands, refreshes, owed),
        Verdict::Refused {
            number,
            rule,
            offset,
            cycle,
        } => lines::refused_line(out, number, rule, offset, cycle),
    }
}
