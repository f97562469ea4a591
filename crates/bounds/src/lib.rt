// Delay rules 1 to 18 and 21 to 27 over a part's share and the other part's bus: the first cycle that each permits, the first rule broken, and the first cycle at which all hold.
#![tactic(auto)]

mod across;
mod answers;
mod banks;
mod delays;
mod folds;
mod kinds;
mod moves;
mod offer;
mod table;

pub use folds::{first_broken, first_cycle};

// The lowest rule that is broken, and its first permitted cycle.
#[derive(Clone, Copy, PartialEq, Eq)]
pub struct Broken {
    pub rule: u8,
    pub cycle: u64,
}
