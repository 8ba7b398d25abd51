//! A value that threads hand to one another, with one history that only grows.
#![tactic(auto)]

mod chronicle;
mod dealing;
mod inbox;
mod inbox_table;
mod law;
mod ledger;
mod marking;
mod seats;
mod turn;
mod view;

pub use chronicle::Chronicle;
pub use inbox::Inbox;
pub use ledger::{AddFault, Ledger, Mark};
pub use marking::add_mark;
pub use seats::{Note, Seat, Turn};

#[cfg(test)]
mod tests;
