//! The records of a CSV file, one at a time, and what their fields say.
//!
//! Records are those of the `csv` crate, with its usual settings: commas, double quotes, no trimming, and records of
//! any length. What a reader of a file refuses beyond that, it tests itself, so no refusal rests on an error of that
//! crate.
#![tactic(auto)]

mod fields;
mod parts;
mod record;

pub use fields::{is_text, number};
pub use parts::record_parts;
pub use record::{Record, Rows};
