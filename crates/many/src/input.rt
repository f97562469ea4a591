// Bytes of standard input, and the length of a trace.
ghost use Rattle.std.specs.Prelude.{◌<◌, ◌≤◌, IfOk, length};

use std::io;
use std::io::Read;

// Why no more verdicts come.
#[derive(Clone, Copy)]
pub enum Halt {
    // The input ends behind a trace.
    Ended,
    // A read fails there.
    Failed(io::Error),
    // The input ends inside a trace or its length.
    Cut,
    // A read fails there.
    CutFailed(io::Error),
}

impl Halt {
    // On standard error. Whether a read failed.
    pub fn tell(&self, rt: &impl Eprint) -> bool {
        let failed = match self {
            Halt::Ended | Halt::Cut => false,
            Halt::Failed(e) | Halt::CutFailed(e) => {
                let _ = eprintln!(rt; "many: standard input: {e}");
                true
            }
        };
        if matches!(self, Halt::Cut | Halt::CutFailed(_)) {
            let _ = eprintln!(rt; "many: the input ends inside a trace or its length");
        }
        failed
    }
}

// One read inside a trace or its length. How many bytes came: some.
pub fn read_inside(rt: &impl Input, room: &mut [u8]) -> Result<usize, Halt>
    ensures some { IfOk result (λ n. 0 < n) }
    ensures fits { IfOk result (λ n. n ≤ length room.new) }
{
    match rt.reader().read(room) {
        Ok(0) => Err(Halt::Cut),
        Ok(got) => Ok(got),
        Err(e) => Err(Halt::CutFailed(e)),
    }
}

// The next trace's length, four bytes. By hand, since std's `read_exact` does not tell an end before the first byte from one behind it.
pub fn length_of_next(rt: &impl Input) -> Result<usize, Halt> {
    let mut head = [0u8; 4];
    let mut have = match rt.reader().read(&mut head) {
        Ok(0) => return Err(Halt::Ended),
        Ok(got) => got,
        Err(e) => return Err(Halt::Failed(e)),
    };
    while have < 4 {
        have += read_inside(rt, &mut head[have..])?;
    }
    Ok(u32::from_be_bytes(head) as usize)
}
