//! Plans: which loads are rolled up to a cell.
use olap_meaning::{Allowed, ColumnId, List};

/// What a planned load brings: its number, and the values of the split that are its own, which no other load of the plan
/// brings.
#[derive(Drop)]
pub struct Part {
    pub load: u64,
    pub own: Allowed,
}

/// Loads that are rolled up to a cell, and the column along which they are, the split: each of its values is taken from
/// one of them.
#[derive(Drop)]
pub struct Plan {
    pub split: ColumnId,
    pub parts: List<Part>,
}
