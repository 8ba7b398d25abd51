//! A table of cells: the groups of their values, which take groups of bodies.
ghost use Rattle.std.specs.Prelude.{◌≡◌, ◌≢◌, ◌+◌, ◌≤◌, ◌<◌, ◌==◌, ◌++◌, ◌∷◌, [], All, IfOk, IfSome, IsTrue, List, OnOk, bytes_eq, length, map, option_copied, option_map, slice_get};
ghost use Rattle.std.specs.List.{position_or_len};
ghost use Rattle.list_orders.specs.Parts.{are_different};
ghost use Rattle.segment_header.specs.Headers.{is_set};
ghost use Rattle.segment_body.specs.AllFolds as all_folds;
ghost use Rattle.olap_meaning.specs.Covering.{columns_of};
ghost use Rattle.segment_body.specs.Groups.{values_of};
ghost use Rattle.segment_body.specs.Tables.{AreKeyed, are_taken, chosen, grown, has_room, passes, places_of, taken_by};

use crate::folds::has_allowed;
use crate::group::GroupTable;
use measure_folds::Tally;
use olap_meaning::{Aggregator, Allowed, Cell, ColumnId, List, OutOfMemory, ROW_LIMIT, ValueId};
use std::alloc::Global;
use std::marker::Model;

/// The groups of the values of some cells of the same columns, and for each cell the place of its group. It has room for
/// the places of the columns among those of a body, and for the values there.
#[derive(Drop)]
pub(crate) struct CellTable {
    columns: List<ColumnId>,
    groups: GroupTable,
    at: Vec<usize>,
    places: Vec<usize>,
    key: Vec<ValueId>,
}

impl Model for CellTable {
    ghost use Rattle.segment_body.specs.Tables.{IsTable, TableOf};

    ghost Value = { TableOf };

    ghost view = { λ t. record { columns = t.columns; groups = t.groups; at = t.at.items } };

    ghost invariant = { λ t. IsTable t.columns t.groups t.places.items t.key.items };
}

impl CellTable {
    /// A group of no row for the values of each cell.
    pub(crate) fn new(
        alloc: Global,
        aggregator: Aggregator,
        cells: &[Cell],
    ) -> Result<CellTable, OutOfMemory>
        requires adds_up { aggregator ≢ Aggregator.DistinctCount }
        requires alike { IsTrue (all_folds.are_alike cells.now) }
        ensures { IfOk result (AreKeyed aggregator cells.now) }
    {
        let columns = columns_in(alloc, cells)?;
        let mut table = CellTable::over(alloc, columns)?;
        table.add_cells(alloc, aggregator, cells)?;
        Ok(table)
    }

    // The table of no cell, over some columns.
    fn over(alloc: Global, columns: List<ColumnId>) -> Result<CellTable, OutOfMemory>
        ensures { IfOk result (λ table. table ≡ record { columns = columns; groups = []; at = [] }) }
    {
        let places = Vec::from_elem(alloc, 0, columns.len())?;
        let key = Vec::from_elem(alloc, ValueId(0), columns.len())?;
        Ok(CellTable {
            columns,
            groups: GroupTable::new(alloc),
            at: Vec::new(alloc),
            places,
            key,
        })
    }

    // Cells, each of the table's columns, where it has none yet.
    fn add_cells(
        &mut self,
        alloc: Global,
        aggregator: Aggregator,
        cells: &[Cell],
    ) -> Result<(), OutOfMemory>
        requires adds_up { aggregator ≢ Aggregator.DistinctCount }
        requires none { AreKeyed aggregator [] self.old }
        requires own { All (λ cell. columns_of cell ≡ self.old.columns) cells.now }
        ensures { OnOk result (AreKeyed aggregator cells.now self.new) }
    {
        let none = Tally::new(alloc, aggregator);
        for cell in cells {
            self.add_cell(alloc, aggregator, cell.at.as_slice(), &none)?;
        }
        Ok(())
    }

    // A cell more, by its pairs, and the tally of no row.
    fn add_cell(
        &mut self,
        alloc: Global,
        aggregator: Aggregator,
        at: &[(ColumnId, ValueId)],
        none: &Tally,
    ) -> Result<(), OutOfMemory>
        requires adds_up { aggregator ≢ Aggregator.DistinctCount }
        requires empty { none.now ≡ record { aggregator = aggregator; values = [] } }
        requires own { map (λ pair. pair.0) at.now ≡ self.old.columns }
        requires fresh { All
            (λ group. group.tally ≡ record { aggregator = aggregator; values = [] }) self.old.groups }
        ensures columns { self.new.columns ≡ self.old.columns }
        ensures cell { (cells : List Cell) (cell : Cell) → cell.at ≡ at.now
            → AreKeyed aggregator cells self.old
            → OnOk result (AreKeyed aggregator (cells ++ cell ∷ []) self.new) }
    {
        read_values(at, &mut self.key);
        let place = self.groups.add_tally(alloc, aggregator, &self.key, none)?;
        self.at.push(place)?;
        Ok(())
    }

    /// Takes some groups, each into the group that has its values on the cells' columns, where there is one: all of them, or,
    /// where something is allowed in a column, those that have it there. It takes no memory.
    pub(crate) fn take(
        &mut self,
        aggregator: Aggregator,
        columns: &[(ColumnId, Allowed)],
        groups: &GroupTable,
        column: ColumnId,
        own: Option<&Allowed>,
    )
        requires adds_up { aggregator ≢ Aggregator.DistinctCount }
        requires own_alike { All (λ group. group.tally.aggregator ≡ aggregator) self.old.groups }
        requires alike { All (λ group. group.tally.aggregator ≡ aggregator) groups.now }
        requires formed { IfSome own (λ allowed. IsTrue (is_set allowed.now)) }
        requires inside { 0 < length self.old.groups
            → All
            (λ group. All (λ place. place < length group.values)
            (places_of columns.now self.old.columns)) groups.now }
        requires room { All
            (has_room
            (are_taken
            (places_of columns.now self.old.columns)
            (passes columns.now column (option_copied own))) groups.now) self.old.groups }
        ensures { self.new
            ≡ record self.old {
              groups = map
                  (grown
                  (are_taken
                  (places_of columns.now self.old.columns)
                  (passes columns.now column (option_copied own.entry))) groups.now) self.old.groups;
            } }
    {
        if self.groups.len() == 0 {
            return;
        }
        find_places(columns, self.columns.as_slice(), &mut self.places);
        take_groups(
            &mut self.groups,
            aggregator,
            columns,
            groups,
            column,
            own,
            &self.places,
            &mut self.key,
        );
    }

    /// Copies of the tallies of the cells' groups, cell by cell.
    pub(crate) fn tallies(
        &self,
        alloc: Global,
        aggregator: Aggregator,
    ) -> Result<List<Tally>, OutOfMemory>
        requires adds_up { aggregator ≢ Aggregator.DistinctCount }
        requires alike { All (λ group. group.tally.aggregator ≡ aggregator) self.now.groups }
        requires room { All (λ group. length group.tally.values ≤ ROW_LIMIT) self.now.groups }
        requires inside { All (λ place. place < length self.now.groups) self.now.at }
        ensures { IfOk result (λ tallies. map Some tallies
            ≡ map
            (λ place. option_map (λ group. group.tally) (slice_get self.now.groups place))
            self.now.at) }
    {
        tallies_at(alloc, aggregator, &self.groups, &self.at)
    }
}

/// The columns of the first of some cells, none where there is no cell.
fn columns_in(alloc: Global, cells: &[Cell]) -> Result<List<ColumnId>, OutOfMemory>
    requires { IsTrue (all_folds.are_alike cells.now) }
    ensures { IfOk result
        (λ columns. All (λ cell. columns_of cell ≡ columns) cells.now) }
{
    if cells.is_empty() {
        return Ok(List::new(alloc));
    }
    columns_at(alloc, cells[0].at.as_slice())
}

/// The columns of some pairs.
fn columns_at(alloc: Global, at: &[(ColumnId, ValueId)]) -> Result<List<ColumnId>, OutOfMemory>
    ensures { IfOk result (λ columns. columns ≡ map (λ pair. pair.0) at.now) }
{
    let mut columns = List::new(alloc);
    for i in 0..at.len() {
        columns.push(at[i].0)?;
    }
    Ok(columns)
}

/// Writes the values of pairs.
fn read_values(at: &[(ColumnId, ValueId)], key: &mut [ValueId])
    requires { length key.old ≡ length at.now }
    ensures { key.new ≡ map (λ pair. pair.1) at.now }
{
    for i in 0..at.len() {
        key[i] = at[i].1;
    }
}

/// The place of a column among a header's, or their number.
fn place_of_column(columns: &[(ColumnId, Allowed)], column: ColumnId) -> usize
    ensures { result ≡ position_or_len (λ own. own.0 == column) columns.now }
{
    let mut place = 0;
    while place < columns.len() {
        if columns[place].0 == column {
            return place;
        }
        place += 1;
    }
    place
}

/// Writes where some columns stand among a header's.
fn find_places(columns: &[(ColumnId, Allowed)], some: &[ColumnId], places: &mut [usize])
    requires { length places.old ≡ length some.now }
    ensures { places.new ≡ places_of columns.now some.now }
{
    for i in 0..some.len() {
        places[i] = place_of_column(columns, some[i]);
    }
}

/// Writes the values at some places.
fn choose(places: &[usize], values: &[ValueId], key: &mut [ValueId])
    requires inside { All (λ place. place < length values.now) places.now }
    requires one_each { length key.old ≡ length places.now }
    ensures { key.new ≡ chosen places.now values.now }
{
    for i in 0..places.len() {
        key[i] = values[places[i]];
    }
}

/// Whether values on some columns have in one column a value that is allowed, where it matters what is allowed there.
fn may_pass(
    columns: &[(ColumnId, Allowed)],
    values: &[ValueId],
    column: ColumnId,
    own: Option<&Allowed>,
) -> bool
    requires { IfSome own (λ allowed. IsTrue (is_set allowed.now)) }
    ensures { result ≡ passes columns.now column (option_copied own.entry) values.now }
{
    match own {
        None => true,
        Some(allowed) => has_allowed(columns, values, column, allowed),
    }
}

/// Merges a tally into the group that has some values, where there is one.
fn take_in(table: &mut GroupTable, key: &[ValueId], tally: &Tally)
    requires different { IsTrue (are_different bytes_eq (values_of table.old)) }
    requires adds_up { tally.now.aggregator ≢ Aggregator.DistinctCount }
    requires alike { All (λ group. group.tally.aggregator ≡ tally.now.aggregator) table.old }
    requires room { All (λ group. group.values ≡ key.now
        → length group.tally.values + length tally.now.values ≤ ROW_LIMIT) table.old }
    ensures { table.new ≡ map (taken_by key.now tally.now.values) table.old }
{
    match table.place_of(key) {
        Some(place) => table.merge_at(place, tally),
        None => {}
    }
}

/// Merges groups into those of a table that have their values at some places.
fn take_groups(
    table: &mut GroupTable,
    aggregator: Aggregator,
    columns: &[(ColumnId, Allowed)],
    groups: &GroupTable,
    column: ColumnId,
    own: Option<&Allowed>,
    places: &[usize],
    key: &mut [ValueId],
)
    requires different { IsTrue (are_different bytes_eq (values_of table.old)) }
    requires adds_up { aggregator ≢ Aggregator.DistinctCount }
    requires own_alike { All (λ group. group.tally.aggregator ≡ aggregator) table.old }
    requires alike { All (λ group. group.tally.aggregator ≡ aggregator) groups.now }
    requires formed { IfSome own (λ allowed. IsTrue (is_set allowed.now)) }
    requires inside { All
        (λ group. All (λ place. place < length group.values) places.now) groups.now }
    requires one_each { length key.old ≡ length places.now }
    requires room { All
        (has_room
        (are_taken places.now (passes columns.now column (option_copied own)))
        groups.now) table.old }
    ensures { table.new
        ≡ map
        (grown
        (are_taken places.now (passes columns.now column (option_copied own.entry)))
        groups.now) table.old }
{
    for i in 0..groups.len() {
        let group = groups.at(i);
        if may_pass(columns, group.0, column, own) {
            choose(places, group.0, key);
            take_in(table, key, group.1);
        }
    }
}

/// A copy of the tally of the group at a place.
fn copy_at(alloc: Global, aggregator: Aggregator, groups: &GroupTable, place: usize) -> Tally
    requires adds_up { aggregator ≢ Aggregator.DistinctCount }
    requires alike { All (λ group. group.tally.aggregator ≡ aggregator) groups.now }
    requires room { All (λ group. length group.tally.values ≤ ROW_LIMIT) groups.now }
    requires inside { place < length groups.now }
    ensures { Some result ≡ option_map (λ group. group.tally) (slice_get groups.now place) }
{
    let mut tally = Tally::new(alloc, aggregator);
    tally.merge(groups.at(place).1);
    tally
}

/// Copies of the tallies of the groups at some places.
fn tallies_at(
    alloc: Global,
    aggregator: Aggregator,
    groups: &GroupTable,
    at: &[usize],
) -> Result<List<Tally>, OutOfMemory>
    requires adds_up { aggregator ≢ Aggregator.DistinctCount }
    requires alike { All (λ group. group.tally.aggregator ≡ aggregator) groups.now }
    requires room { All (λ group. length group.tally.values ≤ ROW_LIMIT) groups.now }
    requires inside { All (λ place. place < length groups.now) at.now }
    ensures { IfOk result (λ tallies. map Some tallies
        ≡ map (λ place. option_map (λ group. group.tally) (slice_get groups.now place)) at.now) }
{
    let mut tallies = List::new(alloc);
    for i in 0..at.len() {
        tallies.push(copy_at(alloc, aggregator, groups, at[i]))?;
    }
    Ok(tallies)
}
