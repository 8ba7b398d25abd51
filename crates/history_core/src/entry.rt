//! Entries of a history.
use crate::cell_sources::CellSources;
use fact_versions::Batch;
use olap_meaning::{Cell, CubeId, Header, Region, Version, Who};
use std::sync::Arc;

/// One event of the cache. A load is named by the position of its Start.
#[derive(Drop)]
pub enum Entry {
    /// A batch of rows makes the next version of a cube.
    Append {
        who: Who,
        cube: CubeId,
        version: Version,
        batch: Arc<Batch>,
    },
    /// An aggregate table stands, built over a version of its cube. It is named by its place in the schema.
    Agg {
        who: Who,
        table: u32,
        version: Version,
    },
    /// The cells of a region are flushed: no load that was started before serves them.
    Flush {
        who: Who,
        region: Arc<Region>,
    },
    /// A load of the cells of a header begins, for the sake of one cell.
    Start {
        who: Who,
        header: Header,
        version: Version,
        reason: Cell,
    },
    /// A load is delivered.
    Done {
        who: Who,
        load: u64,
    },
    /// A load is given up.
    Drop {
        who: Who,
        load: u64,
    },
    /// A load is no longer kept.
    Evict {
        load: u64,
    },
    /// A call is answered, each cell from some loads.
    Answer {
        who: Who,
        cells: Arc<CellSources>,
    },
    /// A call is shown what is kept.
    Saw {
        who: Who,
    },
}
