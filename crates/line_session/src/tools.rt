//! What sessions work with.

use segment_header::Widener;
use shown_values::Formatter;

/// What sessions work with. Threads may share it.
#[derive(Drop)]
pub struct Tools {
    /// Shows the values of cells in grids (Schema Guide, "Cell Formatter").
    pub formatter: Formatter,
    /// Says what the loads of queries allow, so that a load may fetch more than what a query asks for.
    pub widener: Widener,
}

fn may_be_shared<T: Send + Sync>(_value: &T) {}

/// That threads may share them. This costs nothing.
pub fn tools_are_shared(tools: &Tools) {
    may_be_shared(tools);
}
