//! Which kept loads are rolled up to a cell, and the tallies of cells from them.
#![tactic(auto)]

mod finding;
mod kinds;
pub mod laws;
mod marks;
mod parts;
mod plan;
mod rolls;
mod serving;

pub use finding::find_plan;
pub use plan::{Part, Plan};
pub use rolls::{roll, roll_all};
