//! Grids read back: what grid a text is, whatever formatter showed its values.
#![tactic(auto)]

mod columns;
mod fault;
mod grid;
mod head;
mod name;
mod numbers;
mod parting;
mod rows;
mod title;

pub use fault::GridFault;
pub use grid::read_grid;
