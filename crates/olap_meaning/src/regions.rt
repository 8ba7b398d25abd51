//! Regions of cells, as the cache is flushed by them (Cache Control).
ghost use Rattle.std.specs.Prelude.{◌≡◌};

use crate::{ColumnId, CubeId, List, MeasureId, ValueId};

/// A dimension of a region: the measures, or a dimension of the schema by its place.
#[derive(Clone, Copy, Debug, PartialEq, Eq)]
pub enum RegionDim {
    Measures,
    Dimension(u32),
}

/// One box of a region: some measures, or all where it names none, and on each column that it names some values.
#[derive(Drop)]
pub struct RegionBox {
    pub measures: Option<List<MeasureId>>,
    pub columns: List<(ColumnId, List<ValueId>)>,
}

/// A region of a cube: the cells of its boxes.
#[derive(Drop)]
pub struct Region {
    pub cube: CubeId,
    pub dims: List<RegionDim>,
    pub boxes: List<RegionBox>,
}
