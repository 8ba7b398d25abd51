//! By what the records that can cover a cell are found: the anchors of their regions.
ghost use Rattle.std.specs.Prelude.{ℕ, ◌≡◌, ◌==◌, ◌&&◌, ◌||◌, [], None, Option, OnOk, Some, not, true};
ghost use Rattle.std.specs.List.{list_all, list_any, position};
ghost use Rattle.olap_meaning.specs.Covering.{allows};
ghost use Rattle.cache_flush.specs.Anchors as anchors;
ghost use Rattle.cache_flush.specs.Anchors.{AreListed, covers_after, is_listed, some_candidate, stands_under};
ghost use Rattle.cache_flush.specs.Records.{passes_at};

use crate::places::Places;
use crate::record::Record;
use crate::touch::is_allowed;
use olap_meaning::{
    Allowed, Cell, ColumnId, Header, List, OutOfMemory, Region, RegionBox, ValueId,
};
use std::alloc::Global;
use std::marker::Model;

/// The anchor of a region of one box: the last column for which the box has one value, and this value. The region covers no
/// cell with another value of the column.
pub(crate) fn anchor_of(region: &Region) -> Option<(ColumnId, ValueId)>
    ensures { result ≡ anchors.anchor_of region.now }
{
    anchor_in(region.boxes.as_slice())
}

// The anchor of a region of these boxes.
fn anchor_in(boxes: &[RegionBox]) -> Option<(ColumnId, ValueId)>
    ensures { result ≡ anchors.anchor_in boxes.now }
{
    match boxes {
        [one] => last_single(one.columns.as_slice()),
        _ => None,
    }
}

// The last of some columns that has one value, with it.
fn last_single(columns: &[(ColumnId, List<ValueId>)]) -> Option<(ColumnId, ValueId)>
    ensures { result ≡ anchors.last_single None columns.now }
{
    let mut last = None;
    for column in columns {
        last = one_value(column.0, column.1.as_slice()).or(last);
    }
    last
}

// The one value of a column, where it is one.
fn one_value(column: ColumnId, values: &[ValueId]) -> Option<(ColumnId, ValueId)>
    ensures { result ≡ anchors.one_value column values.now }
{
    match values {
        [value] => Some((column, *value)),
        _ => None,
    }
}

/// Whether a header allows the value of an anchor, where it names its column. Where it does not, the region of the anchor does
/// not touch the header.
pub(crate) fn meets(anchor: &Option<(ColumnId, ValueId)>, header: &Header) -> bool
    ensures { result ≡ anchors.meets anchor.now header.now }
{
    match anchor {
        None => true,
        Some((column, value)) => meets_value(header.columns.as_slice(), *column, *value),
    }
}

// Some columns allow a value of a column, where they name it.
fn meets_value(columns: &[(ColumnId, Allowed)], column: ColumnId, value: ValueId) -> bool
    ensures { result
        ≡ list_all (λ own. not (own.0 == column) || allows own.1 value) columns.now }
{
    columns
        .iter()
        .all(|own| own.0 != column || is_allowed(&own.1, value))
}

// The positions under one column: all, and those under each value.
#[derive(Drop)]
struct Column {
    column: ColumnId,
    all: Vec<usize>,
    by_value: Places,
}

impl Model for Column {
    ghost use Rattle.cache_flush.specs.Anchors.{ColumnOf};

    ghost Value = { ColumnOf };

    ghost view = { λ a. record { column = a.column; all = a.all.items; by_value = a.by_value } };
}

impl Column {
    fn new(alloc: Global, column: ColumnId) -> Column
        ensures { result ≡ record { column = column; all = []; by_value = [] } }
    {
        Column {
            column,
            all: Vec::new(alloc),
            by_value: Places::new(alloc),
        }
    }

    // The positions under one value, or all where there is none.
    fn under(&self, value: Option<ValueId>) -> &[usize]
        ensures { result.now ≡ anchors.under self.now value }
    {
        match value {
            Some(value) => self.by_value.at(u64::from(value.0)),
            None => self.all.as_slice(),
        }
    }

    // Puts a position under a value.
    fn add(&mut self, alloc: Global, value: ValueId, position: usize) -> Result<(), OutOfMemory>
        ensures column { self.new.column ≡ self.old.column }
        ensures added { OnOk result (stands_under self.new value position ≡ true) }
        ensures kept { (v p : ℕ) → stands_under self.old v p ≡ true
            → stands_under self.new v p ≡ true }
    {
        self.all.push(position)?;
        self.by_value.add(alloc, u64::from(value.0), position)?;
        Ok(())
    }
}

/// The positions of records under the anchors of their regions. A region without an anchor is a wide one.
#[derive(Drop)]
pub(crate) struct Anchors {
    wide: Vec<usize>,
    columns: Vec<Column>,
}

impl Model for Anchors {
    ghost use Rattle.cache_flush.specs.Anchors.{AnchorsOf};

    ghost Value = { AnchorsOf };

    ghost view = { λ a. record { wide = a.wide.items; columns = a.columns.items } };
}

impl Anchors {
    /// No positions. It takes no memory.
    pub(crate) fn new(alloc: Global) -> Anchors
        ensures { result ≡ record { wide = []; columns = [] } }
    {
        Anchors {
            wide: Vec::new(alloc),
            columns: Vec::new(alloc),
        }
    }

    /// Puts a position under an anchor. Those that are there stay, also where there is no memory.
    pub(crate) fn add(
        &mut self,
        alloc: Global,
        anchor: Option<(ColumnId, ValueId)>,
        position: usize,
    ) -> Result<(), OutOfMemory>
        ensures added { OnOk result (is_listed self.new anchor position ≡ true) }
        ensures kept { (a : Option (ℕ × ℕ)) (p : ℕ) → is_listed self.old a p ≡ true
            → is_listed self.new a p ≡ true }
    {
        match anchor {
            Some((column, value)) => {
                add_under(alloc, &mut self.columns, column, value, position)?;
            }
            None => self.wide.push(position)?,
        }
        Ok(())
    }

    /// Whether one of some records, whose positions stand here, has a flush after a place and covers a cell. It takes no memory.
    pub(crate) fn cover(&self, records: &[Record], place: u64, cell: &Cell) -> bool
        requires listed { AreListed self.now records.now }
        ensures { result ≡ list_any (covers_after place cell.now) records.now }
    {
        self.candidate_covers(records, place, cell)
    }

    // One of the records at the candidates for a cell has a flush after a place and covers the cell.
    fn candidate_covers(&self, records: &[Record], place: u64, cell: &Cell) -> bool
        ensures { result
            ≡ some_candidate self.now cell.now (passes_at (covers_after place cell.now) records.now) }
    {
        some_cover(records, self.wide.as_slice(), place, cell)
            || some_column_covers(records, self.columns.as_slice(), place, cell)
    }
}

// The place of a column among some.
fn place_of(columns: &[Column], column: ColumnId) -> Option<usize>
    ensures { result ≡ position (λ own. own.column == column) columns.now }
{
    columns.iter().position(|own| own.column == column)
}

// One of the records under some columns that are candidates for a cell has a flush after a place and covers the cell.
fn some_column_covers(records: &[Record], columns: &[Column], place: u64, cell: &Cell) -> bool
    ensures { result
        ≡ list_any
        (λ own. list_any (passes_at (covers_after place cell.now) records.now)
        (anchors.under own (anchors.value_in cell.now.at own.column)))
        columns.now }
{
    columns
        .iter()
        .any(|own| column_covers(records, own, place, cell))
}

// So of one column.
fn column_covers(records: &[Record], own: &Column, place: u64, cell: &Cell) -> bool
    ensures { result
        ≡ list_any (passes_at (covers_after place cell.now) records.now)
        (anchors.under own.now (anchors.value_in cell.now.at own.now.column)) }
{
    let value = value_in(cell.at.as_slice(), own.column);
    some_cover(records, own.under(value), place, cell)
}

// The value of a column, where some pairs name it.
fn value_in(pairs: &[(ColumnId, ValueId)], column: ColumnId) -> Option<ValueId>
    ensures { result ≡ anchors.value_in pairs.now column }
{
    for pair in pairs {
        if pair.0 == column {
            return Some(pair.1);
        }
    }
    None
}

// One of the records at some positions has a flush after a place and covers a cell. The latest is asked first.
fn some_cover(records: &[Record], positions: &[usize], place: u64, cell: &Cell) -> bool
    ensures { result
        ≡ list_any (passes_at (covers_after place cell.now) records.now) positions.now }
{
    for i in (0..positions.len()).rev() {
        if covers_at(records, positions[i], place, cell) {
            return true;
        }
    }
    false
}

// The record at a position has a flush after a place and covers a cell.
fn covers_at(records: &[Record], position: usize, place: u64, cell: &Cell) -> bool
    ensures { result ≡ passes_at (covers_after place cell.now) records.now position }
{
    match records.get(position) {
        Some(record) => record.is_after(place) && record.covers(cell),
        None => false,
    }
}

// Puts a position under a value of a column.
fn add_under(
    alloc: Global,
    columns: &mut Vec<Column>,
    column: ColumnId,
    value: ValueId,
    position: usize,
) -> Result<(), OutOfMemory>
    ensures added { OnOk result (list_any
        (λ own. (own.column == column) && stands_under own value position) columns.new.items
        ≡ true) }
    ensures kept { (c v p : ℕ)
        → list_any (λ own. (own.column == c) && stands_under own v p) columns.old.items ≡ true
        → list_any (λ own. (own.column == c) && stands_under own v p) columns.new.items ≡ true }
{
    if let Some(place) = place_of(columns.as_slice(), column) {
        columns[place].add(alloc, value, position)?;
        return Ok(());
    }
    let mut own = Column::new(alloc, column);
    own.add(alloc, value, position)?;
    columns.push(own)?;
    Ok(())
}
