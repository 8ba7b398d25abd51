//! The arguments of the small commands, read a character at a time.
//!
//! ```text
//! blank    = nothing but white
//! position = 1 to 19 digits
//! append   = name file
//! table    = name
//! name     = "[" one or more characters, "]" written as "]]" "]"
//! file     = 1 to 64 of the ASCII letters and digits, "_", "-" and ".", and not "." first
//! ```
//!
//! White, which is spaces and tabs, may stand before, between and after the parts.
#![tactic(auto)]

mod append;
mod blank;
mod characters;
mod name;
mod position;

pub use append::{AppendArgument, read_append};
pub use blank::read_blank;
pub use name::read_name;
pub use position::read_position;
pub use text_forms::ReadFault;
