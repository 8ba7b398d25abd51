//! An input, line by line, and what each line asks for.
//!
//! A line ends at an LF. A CR just before the LF is not part of it, but counts for its length. Bytes after the last LF
//! are a line too. The definitions stand in `Lines` of `query_meaning`, over whole inputs, and in `Requests` here, over
//! whole lines; the reader tells the same lines however a link cuts the input into pieces, and receives no more than it
//! needs.
#![tactic(auto)]

mod argument;
pub mod laws;
mod next;
mod reader;
mod request;

pub use next::Next;
pub use reader::{BUFFER_SIZE, LINE_LIMIT, LineReader};
pub use request::{Request, read_request};
