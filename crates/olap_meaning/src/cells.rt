//! Cells, members and headers: the plain data that the definitions speak of.
ghost use Rattle.std.specs.Prelude.{◌≡◌};

use crate::{ColumnId, CubeId, HierarchyId, List, MeasureId, ValueId};

/// Which seat, and the number of its call.
#[derive(Clone, Copy, Debug, PartialEq, Eq)]
pub struct Who {
    pub seat: u32,
    pub call: u64,
}

/// A cell: a measure of a cube, at one value of each of some columns. The columns rise.
#[derive(Drop)]
pub struct Cell {
    pub cube: CubeId,
    pub measure: MeasureId,
    pub at: List<(ColumnId, ValueId)>,
}

/// Which values of a column a load is over. A set rises and is not empty.
#[derive(Drop)]
pub enum Allowed {
    /// Every value.
    Any,
    Set(List<ValueId>),
}

/// What a segment holds: the cells of one measure over some columns. The columns rise.
#[derive(Drop)]
pub struct Header {
    pub cube: CubeId,
    pub measure: MeasureId,
    pub columns: List<(ColumnId, Allowed)>,
}

/// A member of the cube (Schema Guide, "Dimensions, Hierarchies, Levels").
#[derive(Drop)]
pub enum Member {
    Measure(MeasureId),
    /// The all member, above all others.
    All(HierarchyId),
    /// A member by its path: one value of each level from the top down to its own.
    At(HierarchyId, List<ValueId>),
}

/// Some levels of a cube, as a name may mean them.
#[derive(Clone, Copy, Debug, PartialEq, Eq)]
pub enum LevelRef {
    /// The measures.
    Measures,
    /// All levels of a hierarchy, with the all member where it has one.
    Whole(HierarchyId),
    /// One level of a hierarchy, by its place from 0.
    One(HierarchyId, u32),
}

/// One cell of an answer, with the loads that it was taken from.
#[derive(Drop)]
pub struct CellSource {
    pub cell: Cell,
    pub loads: List<u64>,
}
