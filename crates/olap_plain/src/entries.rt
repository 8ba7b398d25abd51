//! Entries of a history as plain data, for the plain bodies.
ghost use Rattle.std.specs.Prelude.{◌≡◌};

use olap_meaning::tables::Row;
use olap_meaning::{Cell, CellSource, CubeId, Header, List, Region, Version, Who};

/// One entry of the cache's history. A load is named by the position of its Start.
#[derive(Drop)]
pub enum PlainEntry {
    Append {
        who: Who,
        cube: CubeId,
        version: Version,
        rows: List<Row>,
    },
    Agg {
        who: Who,
        table: u32,
        version: Version,
    },
    Flush {
        who: Who,
        region: Region,
    },
    Start {
        who: Who,
        header: Header,
        version: Version,
        reason: Cell,
    },
    Done {
        who: Who,
        load: u64,
    },
    Drop {
        who: Who,
        load: u64,
    },
    Evict {
        load: u64,
    },
    Answer {
        who: Who,
        cells: List<CellSource>,
    },
    Saw {
        who: Who,
    },
}
