// Judges each file that an argument names, up to 65,536 bytes of it: its name; its lines and its verdict, from pieces of 7 bytes; the verdict of the whole once more.
// Behind the word --cuts: the name, and the verdict of every cut, from no bytes to all. The files, and what must come out, are written by expected.py.
#![tactic(auto)]

ghost use Rattle.std.specs.Prelude.{◌≤◌, IfOk, length};

use anyhow::{Context, Result};
use chunks::{State, Verdict, What};
use std::env::FillError;
use std::fs;
use std::io::Read;
use std::rt::{Env, Files};

// A file half judged: the bytes before `at` are, and those from `end` on are still to come.
#[derive(Clone, Copy)]
struct Walk {
    state: State,
    at: usize,
    end: usize,
}

// The first bytes of a line.
fn put(rt: &impl Print, line: &[u8; 64], size: usize) -> Result<()> {
    if let Some(text) = line.get(..size) {
        rt.write_all(text).context("standard output")?;
    }
    Ok(())
}

fn say(rt: &impl Print, verdict: Verdict) -> Result<()> {
    let mut line = [0u8; 64];
    let size = chunks::verdict_line(&mut line, verdict);
    put(rt, &line, size)
}

// One call of the judge on the bytes from `at` to `end`, with room for one line; then seven bytes more come, as far as there are any. None once the verdict is told.
fn piece(rt: &impl Print, walk: Walk, file: &[u8]) -> Result<Option<Walk>> {
    let Walk { state, at, end } = walk;
    let Some(bytes) = file.get(at..end) else {
        return Ok(None);
    };
    let mut line = [0u8; 64];
    let fed = chunks::feed(state, bytes, &mut line, false);
    put(rt, &line, fed.wrote)?;
    let next = Walk {
        state: fed.state,
        at: at.wrapping_add(fed.used),
        end,
    };
    match fed.what {
        What::Over(verdict) => {
            say(rt, verdict)?;
            Ok(None)
        }
        What::Full => Ok(Some(next)),
        What::More => more(rt, next, file),
    }
}

fn more(rt: &impl Print, walk: Walk, file: &[u8]) -> Result<Option<Walk>> {
    if walk.end < file.len() {
        let end = walk.end.saturating_add(7).min(file.len());
        return Ok(Some(Walk { end, ..walk }));
    }
    if let Some(rest) = file.get(walk.at..) {
        say(rt, chunks::finish(walk.state, rest))?;
    }
    Ok(None)
}

fn pieces(rt: &impl Print, file: &[u8]) -> Result<()> {
    let mut walk = Walk {
        state: chunks::start(),
        at: 0,
        end: 0,
    };
    // A proved loop ends; no file lasts for so many pieces.
    for _ in 0..u64::MAX {
        match piece(rt, walk, file)? {
            Some(next) => walk = next,
            None => break,
        }
    }
    Ok(())
}

fn cuts(rt: &impl Print, file: &[u8]) -> Result<()> {
    for size in 0..=file.len() {
        say(rt, judge::judge(&file[..size]))?;
    }
    Ok(())
}

// The bytes of the file, as many as there is room for, and how many these are. By hand, since std's `read_to_end` wants a heap.
fn read_full(file: &mut impl Read, room: &mut [u8]) -> std::io::Result<usize>
    ensures { IfOk result (λ n. n ≤ length room.new) }
{
    let mut have: usize = 0;
    while have < room.len() {
        let more = file.read(&mut room[have..])?;
        if more == 0 {
            break;
        }
        have += more;
    }
    Ok(have)
}

// A file that cannot be opened is named, and passed over.
fn judge_file(rt: &(impl Files + Print + Eprint), path: &str, cut: bool) -> Result<()> {
    let mut buf = io::large_buffer();
    let mut file = match fs::open(rt, path) {
        Ok(file) => file,
        Err(e) => {
            let _ = eprintln!(rt; "{path}: {e}");
            return Ok(());
        }
    };
    let size = read_full(&mut file, &mut buf).context(path)?;
    rt.println(path).context("standard output")?;
    if cut {
        cuts(rt, &buf[..size])
    } else {
        pieces(rt, &buf[..size])?;
        say(rt, judge::judge(&buf[..size]))
    }
}

// A path, or the word behind which the cuts are judged. Whether they are from here on. What is too long for a path, or no text, is a file that cannot be opened.
fn argument(rt: &(impl Env + Files + Print + Eprint), i: usize, cut: bool) -> Result<bool> {
    let mut word = io::buffer();
    let size = rt.arg(i, &mut word).unwrap_or(0);
    if word[..size] == b"--cuts"[..] {
        return Ok(true);
    }
    judge_file(rt, str::from_utf8(&word[..size]).unwrap_or(""), cut)?;
    Ok(cut)
}

// As in `trace`: two programs share no crate for it.
fn is_there(rt: &impl Env, i: usize) -> bool {
    let mut word = [0u8; 1];
    !matches!(rt.arg(i, &mut word), Err(FillError::NotPresent))
}

fn main(rt: HostRuntime) -> Result<()> {
    let mut cut = false;
    for i in 1..usize::MAX {
        if !is_there(&rt, i) {
            break;
        }
        cut = argument(&rt, i, cut)?;
    }
    Ok(())
}
