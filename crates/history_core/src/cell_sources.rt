//! Cells with the loads that they were taken from, in few bytes.
ghost use Rattle.std.specs.Prelude.{◌≡◌, ◌==◌, ◌++◌, ◌∷◌, ◌+◌, ◌≤◌, [], List, Some, IfOk, OnErr, OnOk, drop, length, map, option_map, slice_get, slice_index_or};
ghost use Rattle.std.specs.Vec.{vec_len, vec_capacity};
ghost use Rattle.history_core.specs.CellSources.{AreNumbersOf, IsPacked, cell_of, kind_at, unpacked};

use crate::kinds::{Kind, kind_number};
use crate::load_lists::list_number;
use crate::numbers::Numbers;
use crate::register::Register;
use olap_meaning::{Cell, CellSource, ColumnId, List, OutOfMemory, ValueId};
use std::alloc::Global;
use std::marker::Model;

/// Cells, each with the loads that it was taken from, in few bytes: a cell takes 8 bytes, and 4 for each of its values.
/// What many cells have in common is kept once: cube, measure and columns, and lists of loads.
#[derive(Drop)]
pub struct CellSources {
    alloc: Global,
    kinds: Register<Kind>,
    lists: Register<List<u64>>,
    cells: Vec<Numbers>,
    values: Vec<ValueId>,
}

impl Model for CellSources {
    ghost use Rattle.std.specs.Prelude.{List};
    ghost use Rattle.olap_meaning.specs.declared.cells.CellSource.{CellSource};
    ghost use Rattle.history_core.specs.CellSources.{IsPacked, unpacked};

    ghost Value = { List CellSource };

    ghost view = { λ a. unpacked a.kinds a.lists a.cells.items a.values.items };

    ghost invariant = { λ a. IsPacked a.kinds a.lists a.cells.items a.values.items };
}

impl CellSources {
    /// No cell. It takes no memory.
    pub fn new(alloc: Global) -> CellSources
        ensures { result ≡ [] }
    {
        CellSources {
            alloc,
            kinds: Register::new(alloc),
            lists: Register::new(alloc),
            cells: Vec::new(alloc),
            values: Vec::new(alloc),
        }
    }

    /// Asks for just the room for this many cells more, with this many values together, so that adding them does not grow
    /// the lists step by step. No clause speaks of room: a cell that is added may be refused for memory all the same.
    pub fn reserve(&mut self, cells: usize, values: usize) -> Result<(), OutOfMemory>
        ensures { self.new ≡ self.old }
    {
        self.cells.reserve_exact(cells)?;
        self.values.reserve_exact(values)?;
        Ok(())
    }

    /// Adds a cell at the end, with the loads that it was taken from. It takes memory where no room is reserved.
    pub fn push(&mut self, cell: &Cell, loads: &[u64]) -> Result<(), OutOfMemory>
        ensures ok { OnOk result (self.new
            ≡ self.old ++ (record { cell = cell.now; loads = loads.now }) ∷ []) }
        ensures err { OnErr result (self.new ≡ self.old) }
    {
        let last = self.cells.last().copied();
        let kind = kind_number(self.alloc, &mut self.kinds, last, cell)?;
        let list = list_number(self.alloc, &mut self.lists, last, loads)?;
        let numbers = Numbers { kind, loads: list };
        let at = cell.at.as_slice();
        add_cell(&mut self.cells, &mut self.values, numbers, at)
    }

    /// How many cells there are.
    pub fn len(&self) -> usize
        ensures { result ≡ length self.now }
    {
        self.cells.len()
    }

    /// Whether there is no cell.
    pub fn is_empty(&self) -> bool
        ensures { result ≡ (length self.now == 0) }
    {
        self.cells.is_empty()
    }

    /// The loads of the cell at a place, None past the last.
    pub fn loads_at(&self, i: usize) -> Option<&[u64]>
        ensures { option_map (λ loads. loads.now) result
            ≡ option_map (λ source. source.loads) (slice_get self.now i) }
    {
        let numbers = self.cells.get(i)?;
        let list = self.lists.get(numbers.loads)?;
        Some(list.as_slice())
    }

    /// The cells as a list, each by itself with its loads.
    pub fn to_list(&self, alloc: Global) -> Result<List<CellSource>, OutOfMemory>
        ensures { IfOk result (λ sources. sources ≡ self.now) }
    {
        sources_of(alloc, &self.kinds, &self.lists, &self.cells, &self.values)
    }
}

// Adds the values of some pairs, for which there is room.
fn add_values(values: &mut Vec<ValueId>, at: &[(ColumnId, ValueId)])
    requires { vec_len values.old + length at.now ≤ vec_capacity values.old }
    ensures { values.new.items ≡ values.old.items ++ map (λ pair. pair.1) at.now }
{
    for pair in at {
        values.push_reserved(pair.1);
    }
}

// Adds the numbers of a cell, and the values of its pairs.
fn add_cell(
    cells: &mut Vec<Numbers>,
    values: &mut Vec<ValueId>,
    numbers: Numbers,
    at: &[(ColumnId, ValueId)],
) -> Result<(), OutOfMemory>
    ensures cells { OnOk result (cells.new.items ≡ cells.old.items ++ numbers ∷ []) }
    ensures values { OnOk result
        (values.new.items ≡ values.old.items ++ map (λ pair. pair.1) at.now) }
    ensures cells_kept { OnErr result (cells.new.items ≡ cells.old.items) }
    ensures values_kept { OnErr result (values.new.items ≡ values.old.items) }
{
    cells.reserve(1)?;
    values.reserve(at.len())?;
    add_values(values, at);
    cells.push_reserved(numbers);
    Ok(())
}

// The cell of a kind with some values.
fn cell_with(alloc: Global, kind: &Kind, values: &[ValueId]) -> Result<Cell, OutOfMemory>
    requires { length kind.now.columns ≤ length values.now }
    ensures { IfOk result (λ cell. cell ≡ cell_of kind.now values.now) }
{
    let columns = kind.columns.as_slice();
    let mut at = Vec::with_capacity(alloc, columns.len())?;
    for i in 0..columns.len() {
        at.push_reserved((columns[i], values[i]));
    }
    Ok(Cell {
        cube: kind.cube,
        measure: kind.measure,
        at: List::from_vec(at),
    })
}

// The cell of a kind with some values, by itself with its loads.
fn source_of(
    alloc: Global,
    kind: &Kind,
    values: &[ValueId],
    loads: &[u64],
) -> Result<CellSource, OutOfMemory>
    requires { length kind.now.columns ≤ length values.now }
    ensures { IfOk result
        (λ source. source
        ≡ record { cell = cell_of kind.now values.now; loads = loads.now }) }
{
    let loads = List::from_vec(Vec::from_slice(alloc, loads)?);
    let cell = cell_with(alloc, kind, values)?;
    Ok(CellSource { cell, loads })
}

// The first of some cells, by itself with its loads, and the values of the others.
fn first_source<'v>(
    alloc: Global,
    kinds: &Register<Kind>,
    lists: &Register<List<u64>>,
    first: Numbers,
    values: &'v [ValueId],
) -> Result<(CellSource, &'v [ValueId]), OutOfMemory>
    requires known { AreNumbersOf kinds.now lists.now first }
    requires values { length (kind_at kinds.now first.kind).columns ≤ length values.now }
    ensures source { IfOk result
        (λ taken. taken.0
        ≡ record {
          cell = cell_of (kind_at kinds.now first.kind) values.entry.now;
          loads = slice_index_or lists.now first.loads [];
        }) }
    ensures rest { IfOk result
        (λ taken. taken.1.now
        ≡ drop (length (kind_at kinds.now first.kind).columns) values.entry.now) }
{
    let kind = kinds.get(first.kind).unwrap();
    let list = lists.get(first.loads).unwrap();
    let rest = &values[kind.columns.len()..];
    let source = source_of(alloc, kind, values, list.as_slice())?;
    Ok((source, rest))
}

// Adds cells, each by itself with its loads, for which there is room.
fn add_sources(
    alloc: Global,
    kinds: &Register<Kind>,
    lists: &Register<List<u64>>,
    cells: &[Numbers],
    values: &[ValueId],
    sources: &mut Vec<CellSource>,
) -> Result<(), OutOfMemory>
    requires packed { IsPacked kinds.now lists.now cells.now values.now }
    requires room { vec_len sources.old + length cells.now ≤ vec_capacity sources.old }
    ensures { OnOk result
        (sources.new.items
        ≡ sources.old.items ++ unpacked kinds.now lists.now cells.now values.now) }
{
    let mut left = values;
    for cell in cells {
        let (source, rest) = first_source(alloc, kinds, lists, *cell, left)?;
        sources.push_reserved(source);
        left = rest;
    }
    Ok(())
}

// The cells as a list, each by itself with its loads.
fn sources_of(
    alloc: Global,
    kinds: &Register<Kind>,
    lists: &Register<List<u64>>,
    cells: &[Numbers],
    values: &[ValueId],
) -> Result<List<CellSource>, OutOfMemory>
    requires { IsPacked kinds.now lists.now cells.now values.now }
    ensures { IfOk result
        (λ sources. sources ≡ unpacked kinds.now lists.now cells.now values.now) }
{
    let mut sources = Vec::with_capacity(alloc, cells.len())?;
    add_sources(alloc, kinds, lists, cells, values, &mut sources)?;
    Ok(List::from_vec(sources))
}
