//! Queries, as they are written.

use crate::set_text::SetText;
use olap_meaning::{List, Text};

/// An axis, as it is written.
#[derive(Drop)]
pub struct AxisText {
    /// NON EMPTY stands before its set.
    pub non_empty: bool,
    pub set: SetText,
}

/// A query, as it is written. The slicer has no path where none stands there, and a path by itself is a tuple of it
/// alone. A query that was read has a name in each path, a path in each tuple, and no set deeper than 16; one that is put
/// together by hand may have what no text writes.
#[derive(Drop)]
pub struct Query {
    pub columns: AxisText,
    pub rows: Option<AxisText>,
    pub cube: Text,
    pub slicer: List<List<Text>>,
}
