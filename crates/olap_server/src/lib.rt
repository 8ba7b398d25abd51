//! The command line of `olapd`, from its words to the bytes that it writes.
#![tactic(auto)]

mod bound_query;
mod cell;
mod cell_command;
mod command;
mod counted;
mod fault;
pub mod laws;
mod part;
mod query;
mod reply;
mod sessions;
mod status;
mod top_call;
mod words;

pub use cell::cell_of_csv;
pub use counted::carry_out;
pub use fault::CellFault;
pub use line_session::Tools;
pub use sessions::Ended;
pub use status::Status;
pub use top_call::{refuse_for_memory, run};
pub use words::Words;
