//! How the values of cells are shown, and shown values read back (Schema Guide, "Cell Formatter").
//!
//! A shown text has no tab, carriage return or line feed, and without its commas and spaces it is the plain text of its
//! value. So whatever formatter showed a value, it is read back.
#![tactic(auto)]

mod formatter;
mod plain;
mod reading;

pub use formatter::{Formatter, GivesTexts, Showing, formatters_are_shared};
pub use plain::{plain_formatter, shown_plainly};
pub use reading::read_value;
