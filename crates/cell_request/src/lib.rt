//! What a query means in a catalog: its axes, or why it means none; and the cells of axes.
#![tactic(auto)]

mod axes;
mod axis_cells;
mod boxes;
mod braces;
mod defaults;
mod fault;
mod members;
mod names;
mod parts;
mod plan;
mod roots;
mod sets;

pub use axes::resolve;
pub use axis_cells::cells;
pub use fault::ResolveFault;
