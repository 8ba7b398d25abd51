//! A seat over a manager that nobody else has.
#![tactic(auto)]

mod asking;
mod seat;

pub use seat::ManagerDesk;
