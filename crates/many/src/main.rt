// Reads traces from standard input, each behind its length (4 bytes, big-endian), and prints the verdict of each, until the input ends.
// The files stdin and stdout are written by expected.py.
#![tactic(auto)]

mod input;
mod traces;

ghost use Rattle.std.specs.Prelude.{◌+◌, ◌≤◌};

use chunks::Verdict;
use input::Halt;
use std::process::ExitCode;

// Lines that are still to be printed, in the first `wrote` bytes of a buffer that lasts: no heap. There is room for one more.
#[derive(Drop)]
struct Lines {
    out: [u8; 65536],
    wrote: usize,
    ghost room: { wrote + 64 ≤ 65536 },
}

impl Lines {
    fn new() -> Self {
        Lines {
            out: io::large_buffer(),
            wrote: 0,
        }
    }

    // The verdict's line behind the others. They are printed once there is not room for any line.
    fn tell(&mut self, rt: &impl Print, verdict: Verdict) -> std::io::Result<()> {
        let end = self.wrote + chunks::verdict_line(&mut self.out[self.wrote..], verdict);
        if end <= 65536 - 64 {
            self.wrote = end;
            return Ok(());
        }
        self.wrote = 0;
        rt.write_all(&self.out[..end])
    }

    fn print(&self, rt: &impl Print) -> std::io::Result<()> {
        rt.write_all(&self.out[..self.wrote])
    }
}

// Why it halts, where all that was to be printed before was.
fn tell_all(rt: &(impl Input + Print), lines: &mut Lines) -> std::io::Result<Halt> {
    let mut buf = io::large_buffer();
    // A proved loop ends; no input has so many traces.
    for _ in 0..u64::MAX {
        match traces::judge_next(rt, &mut buf) {
            Ok(verdict) => lines.tell(rt, verdict)?,
            Err(halt) => return Ok(halt),
        }
    }
    Ok(Halt::Ended)
}

// Whether no read failed.
fn run(rt: &(impl Input + Print + Eprint)) -> std::io::Result<bool> {
    let mut lines = Lines::new();
    let halt = tell_all(rt, &mut lines)?;
    let failed = halt.tell(rt);
    lines.print(rt)?;
    Ok(!failed)
}

fn main(rt: HostRuntime) -> ExitCode {
    match run(&rt) {
        Ok(true) => ExitCode::SUCCESS,
        Ok(false) => ExitCode::FAILURE,
        Err(e) => {
            let _ = eprintln!(rt; "many: standard output: {e}");
            ExitCode::FAILURE
        }
    }
}
