//! The loads in flight: who started each, and which of them a cell awaits.
//!
//! A cell awaits a load in flight that covers it with just its columns, where no flush shuts the load off for it. How many loads
//! have each mask is counted, so that a cell whose columns no load in flight has costs one look-up.
#![tactic(auto)]

mod flight;
mod flights;
mod masks;
mod shared;

pub use flights::Flights;
