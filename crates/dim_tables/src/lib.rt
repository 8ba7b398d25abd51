//! Dimension tables: what a dimension's CSV file says, record by record, or its first fault.
//!
//! Columns are found by the exact text of the header, and the first fault from the header down is the answer.
#![tactic(auto)]

mod bound;
mod fault;
mod reader;
mod shared;

pub use fault::TableFault;
pub use reader::read_table;
