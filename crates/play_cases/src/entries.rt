//! Entries of a history over the small catalog, and cells, as words.
use crate::lines::{Wrong, number, place, words};
use olap_meaning::tables::Row;
use olap_meaning::{
    Allowed, Cell, CellSource, ColumnId, CubeId, Header, LeafId, List, MeasureId, OutOfMemory,
    Region, RegionBox, RegionDim, ValueId, Version, Who,
};
use olap_plain::PlainEntry;
use std::alloc::Global;

// Columns with their values, parted at commas: `0=0,1=1`.
fn pairs(alloc: Global, text: &str) -> Result<List<(ColumnId, ValueId)>, Wrong> {
    let mut pairs = List::new(alloc);
    for word in text.split_terminator(',') {
        let Some((column, value)) = word.split_once('=') else {
            return Err(Wrong::Words("no column"));
        };
        pairs.push((ColumnId(place(column)?), ValueId(number(value)?)))?;
    }
    Ok(pairs)
}

/// A cell of the first cube, by its measure and its columns: `1:0=0,1=1`.
pub(crate) fn numbered_cell(alloc: Global, text: &str) -> Result<Cell, Wrong> {
    let Some((measure, columns)) = text.split_once(':') else {
        return Err(Wrong::Words("no measure"));
    };
    let measure = MeasureId(place(measure)?);
    Ok(Cell {
        cube: CubeId(0),
        measure,
        at: pairs(alloc, columns)?,
    })
}

/// A cell of the small catalog: the first year, or its first or its second quarter; or by its measure and its columns.
pub(crate) fn cell(alloc: Global, name: &str) -> Result<Cell, Wrong> {
    match name {
        "year" => numbered_cell(alloc, "0:0=0"),
        "first" => numbered_cell(alloc, "0:0=0,1=0"),
        "second" => numbered_cell(alloc, "0:0=0,1=1"),
        name => numbered_cell(alloc, name),
    }
}

/// A row of one leaf and one number.
pub(crate) fn row(alloc: Global, leaf: u32, units: i64) -> Result<Row, OutOfMemory> {
    let mut leaves = List::new(alloc);
    leaves.push(LeafId(leaf))?;
    let mut values = List::new(alloc);
    values.push(Some(units))?;
    Ok(Row { leaves, values })
}

fn rows(alloc: Global, leaf: u32, count: u32) -> Result<List<Row>, OutOfMemory> {
    let mut rows = List::new(alloc);
    for _ in 0..count {
        rows.push(row(alloc, leaf, 5)?)?;
    }
    Ok(rows)
}

// What a header allows in a column: any value, or those of a set, parted at signs of addition.
fn allowed(alloc: Global, text: &str) -> Result<Allowed, Wrong> {
    if text == "*" {
        return Ok(Allowed::Any);
    }
    let mut values = List::new(alloc);
    for value in text.split('+') {
        values.push(ValueId(number(value)?))?;
    }
    Ok(Allowed::Set(values))
}

// The columns of a header: `0=*,1=0+1`.
fn allowed_columns(alloc: Global, text: &str) -> Result<List<(ColumnId, Allowed)>, Wrong> {
    let mut columns = List::new(alloc);
    for word in text.split_terminator(',') {
        let Some((column, values)) = word.split_once('=') else {
            return Err(Wrong::Words("no column"));
        };
        columns.push((ColumnId(place(column)?), allowed(alloc, values)?))?;
    }
    Ok(columns)
}

// The columns of a cell, with any value.
fn open_columns(alloc: Global, cell: &Cell) -> Result<List<(ColumnId, Allowed)>, OutOfMemory> {
    let mut columns = List::new(alloc);
    for pair in cell.at.as_slice() {
        columns.push((pair.0, Allowed::Any))?;
    }
    Ok(columns)
}

/// Loads, parted at signs of addition, or none.
pub(crate) fn loads(alloc: Global, text: &str) -> Result<List<u64>, Wrong> {
    let mut loads = List::new(alloc);
    if text != "none" {
        for load in text.split('+') {
            loads.push(u64::from(number(load)?))?;
        }
    }
    Ok(loads)
}

// A cell with the loads that it is taken from.
fn cells(alloc: Global, name: &str, from: &str) -> Result<List<CellSource>, Wrong> {
    let loads = loads(alloc, from)?;
    let cell = cell(alloc, name)?;
    let mut cells = List::new(alloc);
    cells.push(CellSource { cell, loads })?;
    Ok(cells)
}

// A dimension of a region: the measures, or one by its number.
fn region_dim(word: &str) -> Result<RegionDim, Wrong> {
    match word {
        "measures" => Ok(RegionDim::Measures),
        word => Ok(RegionDim::Dimension(number(word)?)),
    }
}

// One value, or none.
fn region_values(alloc: Global, value: &str) -> Result<List<ValueId>, Wrong> {
    let mut values = List::new(alloc);
    if value != "none" {
        values.push(ValueId(number(value)?))?;
    }
    Ok(values)
}

// One box: a column with one value, or with none.
fn region_box(alloc: Global, column: &str, value: &str) -> Result<RegionBox, Wrong> {
    let values = region_values(alloc, value)?;
    let mut columns = List::new(alloc);
    columns.push((ColumnId(place(column)?), values))?;
    Ok(RegionBox {
        measures: None,
        columns,
    })
}

fn region_boxes(alloc: Global, column: &str, value: &str) -> Result<List<RegionBox>, Wrong> {
    let mut boxes = List::new(alloc);
    boxes.push(region_box(alloc, column, value)?)?;
    Ok(boxes)
}

fn region_dims(alloc: Global, dim: &str) -> Result<List<RegionDim>, Wrong> {
    let mut dims = List::new(alloc);
    dims.push(region_dim(dim)?)?;
    Ok(dims)
}

// A region of one dimension and one box: a column with one value, or with none.
fn region(alloc: Global, dim: &str, column: &str, value: &str) -> Result<Region, Wrong> {
    let dims = region_dims(alloc, dim)?;
    Ok(Region {
        cube: CubeId(0),
        dims,
        boxes: region_boxes(alloc, column, value)?,
    })
}

fn who(seat: &str, call: &str) -> Result<Who, Wrong> {
    Ok(Who {
        seat: number(seat)?,
        call: u64::from(number(call)?),
    })
}

fn append(alloc: Global, words: &[&str]) -> Result<PlainEntry, Wrong> {
    let [call, version, leaf, count] = words else {
        return Err(Wrong::Words("no batch"));
    };
    let who = who("1", call)?;
    let version = Version(number(version)?);
    Ok(PlainEntry::Append {
        who,
        cube: CubeId(0),
        version,
        rows: rows(alloc, number(leaf)?, number(count)?)?,
    })
}

fn aggregate(words: &[&str]) -> Result<PlainEntry, Wrong> {
    let [call, table, version] = words else {
        return Err(Wrong::Words("no aggregate table"));
    };
    Ok(PlainEntry::Agg {
        who: who("1", call)?,
        table: number(table)?,
        version: Version(number(version)?),
    })
}

// The header of a load of a cell, by what it allows, or with any value in the cell's columns.
fn header(alloc: Global, reason: &Cell, columns: Option<&str>) -> Result<Header, Wrong> {
    let columns = match columns {
        Some(columns) => allowed_columns(alloc, columns)?,
        None => open_columns(alloc, reason)?,
    };
    Ok(Header {
        cube: reason.cube,
        measure: reason.measure,
        columns,
    })
}

fn start(alloc: Global, words: &[&str]) -> Result<PlainEntry, Wrong> {
    let [seat, version, name, rest @ ..] = words else {
        return Err(Wrong::Words("no load"));
    };
    let who = who(seat, "0")?;
    let version = Version(number(version)?);
    let reason = cell(alloc, name)?;
    Ok(PlainEntry::Start {
        who,
        header: header(alloc, &reason, rest.first().copied())?,
        version,
        reason,
    })
}

fn answer(alloc: Global, words: &[&str]) -> Result<PlainEntry, Wrong> {
    let [seat, call, name, loads] = words else {
        return Err(Wrong::Words("no answer"));
    };
    Ok(PlainEntry::Answer {
        who: who(seat, call)?,
        cells: cells(alloc, name, loads)?,
    })
}

fn flush(alloc: Global, words: &[&str]) -> Result<PlainEntry, Wrong> {
    let [call, dim, column, value] = words else {
        return Err(Wrong::Words("no flush"));
    };
    Ok(PlainEntry::Flush {
        who: who("1", call)?,
        region: region(alloc, dim, column, value)?,
    })
}

// An entry of two numbers: an end of a load by a seat, an eviction, or a call that a seat saw.
fn short_entry(kind: &str, words: &[&str]) -> Result<PlainEntry, Wrong> {
    let [seat, second] = words else {
        return Err(Wrong::Words("no entry"));
    };
    let load = u64::from(number(second)?);
    match kind {
        "done" => Ok(PlainEntry::Done {
            who: who(seat, "0")?,
            load,
        }),
        "drop" => Ok(PlainEntry::Drop {
            who: who(seat, "0")?,
            load,
        }),
        "evict" => Ok(PlainEntry::Evict { load }),
        "saw" => Ok(PlainEntry::Saw {
            who: who(seat, second)?,
        }),
        _ => Err(Wrong::Words("no entry")),
    }
}

// The entry of a word and what stands after it.
fn entry_of(alloc: Global, words: &[&str]) -> Result<PlainEntry, Wrong> {
    let [kind, rest @ ..] = words else {
        return Err(Wrong::Words("no entry"));
    };
    match *kind {
        "append" => append(alloc, rest),
        "agg" => aggregate(rest),
        "start" => start(alloc, rest),
        "answer" => answer(alloc, rest),
        "flush" => flush(alloc, rest),
        kind => short_entry(kind, rest),
    }
}

/// The entry of a line.
pub(crate) fn entry(alloc: Global, text: &str) -> Result<PlainEntry, Wrong> {
    let words = words(alloc, text)?;
    entry_of(alloc, words.as_slice())
}
