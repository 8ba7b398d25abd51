//! Batches of fact rows: what a cube's CSV file says, record by record, or its first fault.
//!
//! Columns are found by the exact text of the header, keys by their exact text, and the first fault from the header
//! down is the answer.
#![tactic(auto)]

mod bound;
mod columns;
mod fault;
mod reader;
mod shared;

pub use fault::BatchFault;
pub use reader::read_batch;
