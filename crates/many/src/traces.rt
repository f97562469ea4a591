// One trace of the stream.
ghost use Rattle.std.specs.Prelude.{◌+◌, ◌<◌, ◌≤◌, IfOk, length};

use crate::input;
use crate::input::Halt;
use chunks::{State, Verdict, What};

// A trace half read. The first `have` bytes of the buffer, which lasts from trace to trace (no heap), are still to be judged.
#[derive(Clone, Copy)]
struct Half {
    what: What,
    state: State,
    have: usize,
    ghost short: { have < 11 },
}

impl Half {
    fn new() -> Self {
        Half {
            what: What::More,
            state: chunks::start(),
            have: 0,
        }
    }

    // The bytes that are held, judged; those that are left over are moved to the start. Once the verdict is known the rest of the trace is passed over.
    fn judge(self, held: &mut [u8]) -> Self {
        if let What::Over(_) = self.what {
            return Half {
                what: self.what,
                state: self.state,
                have: 0,
            };
        }
        let fed = chunks::feed(self.state, held, &mut [], true);
        held.copy_within(fed.used.., 0);
        let have = match fed.what {
            What::Over(_) => 0,
            // It never asks for room, since it writes no line.
            What::More | What::Full => held.len() - fed.used,
        };
        Half {
            what: fed.what,
            state: fed.state,
            have,
        }
    }

    fn verdict(self, buf: &[u8]) -> Verdict
        requires { 11 ≤ length buf.now }
    {
        match self.what {
            What::Over(verdict) => verdict,
            What::More | What::Full => chunks::finish(self.state, &buf[..self.have]),
        }
    }
}

// One read of a trace of which so many bytes are still to come, behind those that are held. How many came.
fn read_on(rt: &impl Input, buf: &mut [u8], have: usize, left: usize) -> Result<usize, Halt>
    requires { (have < length buf.old) × (0 < left) }
    ensures { IfOk result (λ n. (0 < n) × (n ≤ left) × (have + n ≤ length buf.new)) }
{
    let end = have + left.min(buf.len() - have);
    input::read_inside(rt, &mut buf[have..end])
}

pub fn judge_next(rt: &impl Input, buf: &mut [u8]) -> Result<Verdict, Halt>
    requires { 11 ≤ length buf.old }
{
    let mut left = input::length_of_next(rt)?;
    let mut half = Half::new();
    while left > 0 {
        let got = read_on(rt, buf, half.have, left)?;
        half = half.judge(&mut buf[..half.have + got]);
        left -= got;
    }
    Ok(half.verdict(buf))
}
