// One turn of the program. The caller prints its text.
ghost use Rattle.std.specs.Prelude.{◌≡◌, ◌≤◌, ◌<◌, length, take, IfOk, OnErr};
ghost use Rattle.rules.specs.Lines.{verdict_line};
ghost use Rattle.chunks.specs.Values.{verdict_of};
ghost use Rattle.chunks.specs.Heard.{heard_of};
ghost use Rattle.trace.specs.Calls as calls;
ghost use Rattle.trace.specs.Standing.{Turned, Fits};

use chunks::{State, Verdict, What};
use std::io::{Error, Read};

// What the next turn does: it reads, or has the judge go on, or tells the verdict; or there is none, since that was told.
#[derive(Clone, Copy)]
pub enum Next {
    Read,
    Judge,
    Tell(Verdict),
    Done,
}

impl From<What> for Next {
    ghost from_gives = { λ what next. next ≡ calls.next_of what };

    #[tactic(auto, unfolding(crate::specs::Calls::next_of))]
    fn from(what: What) -> Next {
        match what {
            What::More => Next::Read,
            What::Full => Next::Judge,
            What::Over(verdict) => Next::Tell(verdict),
        }
    }
}

// A file half read. The first `have` bytes of the buffer are still to be judged, the first `wrote` of the lent room are to be printed: both buffers are lent, no heap. `ended`: no more bytes come.
// What stands between two turns (`Stands`) is said of `have` and `ended`, so these stay beside the buffer and the state; no code reads `ended`, and a ghost field holds facts alone.
#[derive(Clone, Copy)]
pub struct Turn {
    pub next: Next,
    ended: bool,
    state: State,
    have: usize,
    pub wrote: usize,
}

impl Turn {
    // Before the first byte.
    pub fn first() -> Turn
        ensures { result ≡ calls.first_turn }
    {
        Turn {
            next: Next::Read,
            ended: false,
            state: chunks::start(),
            have: 0,
            wrote: 0,
        }
    }
}

// One call of the judge on some bytes. Those that are left over are moved to the start.
fn judge_some(state: State, bytes: &mut [u8], out: &mut [u8], quiet: bool) -> Turn
    ensures { calls.CalledAs (heard_of quiet (length out.old) state bytes.old) bytes.old out.old out.new bytes.new result }
{
    let fed = chunks::feed(state, bytes, out, quiet);
    bytes.copy_within(fed.used.., 0);
    Turn {
        next: Next::from(fed.what),
        ended: false,
        state: fed.state,
        have: bytes.len() - fed.used,
        wrote: fed.wrote,
    }
}

// One read, behind the bytes that are left over.
fn read_some(rt: &impl Input, state: State, buf: &mut [u8], have: usize) -> Result<Turn, Error>
    requires { have < length buf.old }
    ensures came { IfOk result (calls.ReadAs state (take have buf.old) buf.new) }
    ensures kept { OnErr result (take have buf.new ≡ take have buf.old) }
{
    let more = rt.reader().read(&mut buf[have..])?;
    let (next, ended) = if more == 0 {
        (Next::Tell(chunks::finish(state, &buf[..have])), true)
    } else {
        (Next::Judge, false)
    };
    Ok(Turn {
        next,
        ended,
        state,
        have: have + more,
        wrote: 0,
    })
}

// The verdict's line.
fn tell(at: Turn, out: &mut [u8], verdict: Verdict) -> Turn
    requires { 64 ≤ length out.old }
    ensures turn { result ≡ calls.gone_to at Next.Done (length (verdict_line (verdict_of verdict))) }
    ensures text { take result.wrote out.new ≡ verdict_line (verdict_of verdict) }
{
    Turn {
        next: Next::Done,
        wrote: chunks::verdict_line(out, verdict),
        ..at
    }
}

// `stands` says what is true after it of all that was read and printed so far. Nothing is said where a read failed: the program ends.
pub fn one_turn(
    rt: &impl Input,
    at: Turn,
    buf: &mut [u8],
    out: &mut [u8],
    quiet: bool,
) -> Result<Turn, Error>
    requires fits_before { Fits at (length buf.old) }
    requires in_bounds { (11 ≤ length buf.old) × (64 ≤ length out.old) }
    ensures fits { IfOk result (λ r. Fits r (length buf.new)) }
    ensures wrote { IfOk result (λ r. r.wrote ≤ length out.new) }
    ensures stands { IfOk result (λ r. Turned quiet at buf.old r buf.new out.new) }
{
    match at.next {
        Next::Read => read_some(rt, at.state, buf, at.have),
        Next::Judge => Ok(judge_some(at.state, &mut buf[..at.have], out, quiet)),
        Next::Tell(verdict) => Ok(tell(at, out, verdict)),
        Next::Done => Ok(Turn { wrote: 0, ..at }),
    }
}
