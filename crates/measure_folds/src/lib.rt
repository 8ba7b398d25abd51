//! Tallies: one measure summed up over fact rows, a row at a time.
#![tactic(auto)]

mod counts;
mod distinct;
mod extremes;
mod state;
mod sums;
mod tally;

pub use tally::Tally;
