// Reads a trace from standard input and prints each accepted entry, then the verdict; with -q the verdict only. All that it prints comes from `chunks`.
// The file stdin is document 01's bench card with ACT of bank 0 at 0 and RD of it at 14, one cycle too early.
#![tactic(auto)]

mod turns;

use std::env::FillError;
use std::io::Error;
use std::process::ExitCode;
use std::rt::Env;
use turns::{Next, Turn};

// Why no verdict was told: a read or a write failed; or there were more turns than any input lasts for, since a proved loop ends.
#[derive(Clone, Copy)]
enum Trouble {
    Input(Error),
    Output(Error),
    Endless,
}

impl Trouble {
    fn tell(self, rt: &impl Eprint) {
        let _ = match self {
            Trouble::Input(e) => eprintln!(rt; "trace: standard input: {e}"),
            Trouble::Output(e) => eprintln!(rt; "trace: standard output: {e}"),
            Trouble::Endless => Ok(()),
        };
    }
}

fn usage(rt: &impl Eprint) -> Result<(), Error> {
    rt.eprint(
        "usage: trace [-q] < FILE\n\
        Judges an LPDDR3 command trace. Prints each accepted entry as its cycle, name and bank,\n\
        then \"accepted COMMANDS REFRESHES LEDGER\" or \"refused NUMBER RULE OFFSET CYCLE\".\n\
        Of two parts on one bus each entry ends in its part, and there is a LEDGER for each.\n\
        \x20 -q      print the last line only\n\
        \x20 --help  print this text\n",
    )
}

fn run(rt: &(impl Input + Print), quiet: bool) -> Result<(), Trouble> {
    let mut buf = io::large_buffer();
    let mut out = io::large_buffer();
    let mut at = Turn::first();
    for _ in 0..u64::MAX {
        at = turns::one_turn(rt, at, &mut buf, &mut out, quiet).map_err(Trouble::Input)?;
        rt.write_all(&out[..at.wrote]).map_err(Trouble::Output)?;
        if matches!(at.next, Next::Done) {
            return Ok(());
        }
    }
    Err(Trouble::Endless)
}

// As in `corpus`: two programs share no crate for it.
fn is_there(rt: &impl Env, i: usize) -> bool {
    let mut word = [0u8; 2];
    !matches!(rt.arg(i, &mut word), Err(FillError::NotPresent))
}

// Whether the verdict alone is asked for: with no argument it is not, with -q and no other it is. None for other arguments.
fn asks_quiet(rt: &impl Env) -> Option<bool> {
    if !is_there(rt, 1) {
        return Some(false);
    }
    let mut word = [0u8; 2];
    let is_quiet = matches!(rt.arg(1, &mut word), Ok(2)) && word == *b"-q";
    (is_quiet && !is_there(rt, 2)).then_some(true)
}

fn main(rt: HostRuntime) -> ExitCode {
    let told = match asks_quiet(&rt) {
        Some(quiet) => run(&rt, quiet).map_err(|trouble| trouble.tell(&rt)).is_ok(),
        None => usage(&rt).is_ok(),
    };
    if told {
        ExitCode::SUCCESS
    } else {
        ExitCode::FAILURE
    }
}
