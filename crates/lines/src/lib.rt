// The lines that the trace program prints: of entries that were taken, and of the verdict.
#![tactic(auto)]

mod counters;
mod entries;
mod names;
mod numbers;
mod runs;
mod stamps;
mod tails;
mod text;
mod verdicts;

pub use runs::entry_lines;
pub use verdicts::{accepted_line, refused_line};

// What is owed at the end, by the one part or by each of two: its ledger with 8 added.
#[derive(Clone, Copy)]
pub enum Owed {
    One(u8),
    Two(u8, u8),
}
