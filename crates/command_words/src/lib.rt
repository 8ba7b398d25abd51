//! The options of a command, read from its words.
//!
//! `Options` says which words are a command line, and `Commands` what they ask for. The words are read with `clap`, after a test that each of
//! them can be an option or a value. What `clap` makes of such words is proved once, for any list of option names.
#![tactic(auto)]

mod fault;
pub mod laws;
mod number;
mod odd_words;
mod options;
mod run;

pub use fault::CommandFault;
pub use run::{MOST_BUDGET, RunOptions, USUAL_BUDGET, read_run};
