//! The manager of a cache: it answers cells from the loads that it keeps, and hands out the loads that are missing.
//!
//! Contracts see a manager as its history. What it keeps beside that, and what this means in the history, is its
//! invariant. Of the loads that it keeps it knows what their shelf promises, and of those in flight what the list of them
//! does; other forms of these may take their place under the same contracts.
#![tactic(auto)]

mod alike;
mod answers;
mod evictions;
mod findings;
mod flush;
mod jobs;
pub mod laws;
mod look;
mod manager;
mod outcome;
mod rollups;
mod shared;
mod show;
mod starts;
mod tables;
mod waits;

pub use jobs::{Delivery, LoadJob, run_load};
pub use manager::Manager;
pub use outcome::Look;
