//! What the axes of a query are in a catalog.

use olap_meaning::{CubeId, List, Member};

/// An axis: its tuples, in their order. Each tuple is a list of members.
#[derive(Drop)]
pub struct Axis {
    /// Positions whose cells are all empty are not shown.
    pub non_empty: bool,
    pub tuples: List<List<Member>>,
}

/// The cube, the axes and the slicer of a query. Each member of the slicer holds for every cell.
#[derive(Drop)]
pub struct Axes {
    pub cube: CubeId,
    pub columns: Axis,
    pub rows: Option<Axis>,
    pub slicer: List<Member>,
}
