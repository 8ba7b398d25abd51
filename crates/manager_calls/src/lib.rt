//! Whole runs of calls on one manager, by any seats, with any number of loads in flight: whatever calls are made, the history
//! is legal, and each reply has its cause where its call was made.
#![tactic(auto)]

mod calls;
mod looks;

pub use calls::{Call, Reply, Run, run_calls};
