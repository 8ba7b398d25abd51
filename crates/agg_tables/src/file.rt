//! An aggregate table over the header of its file.
ghost use Rattle.std.specs.Prelude.{◌≡◌, ◌⊎◌, ◌<◌, ◌++◌, ◌∷◌, [], true, Bool, IfErr, IfOk, IfSome, IsTrue, None, OnOk, Some, length, map, option_map, slice_get, slice_index_or, take};
ghost use Rattle.std.specs.List.{list_all};
ghost use Rattle.olap_meaning.specs.Records.{column_place, field_in, is_csv, missing_column};
ghost use Rattle.agg_tables.specs.declared.fault.AggFault.TheVariants.{NoColumn};
ghost use Rattle.agg_tables.specs.Bound.{IsPlaced};
ghost use Rattle.agg_tables.specs.Declarations.{columns_below};
ghost use Rattle.agg_tables.specs.Files.{header_fault, level_fault, level_value, record_values};
ghost use Rattle.agg_tables.specs.Files as meaning;
ghost use Rattle.agg_tables.specs.Places.{AreLevelsPlaced, AreNumbersPlaced, AreSummed, IsBound, chosen, order_below};

use crate::columns::level_order;
use crate::declared::{Declared, FileColumn, Fold, TableLevel, TableMeasure};
use crate::fault::AggFault;
use crate::folds::folds_of;
use csv_records::Record;
use olap_catalog::Catalog;
use olap_meaning::{Aggregator, OutOfMemory, Text, ValueId};
use std::alloc::Global;
use std::marker::Model;

/// A table over the header of its file: where its columns stand, what is summed up for them, and of which levels the
/// values of its columns are, in the order of the columns.
#[derive(Drop)]
pub(crate) struct TableFile<'a> {
    catalog: &'a Catalog,
    declared: &'a Declared,
    header: Record,
    level_places: Vec<usize>,
    order: Vec<usize>,
    count_place: usize,
    columns: Vec<FileColumn>,
    column_places: Vec<usize>,
    folds: Vec<Fold>,
    column_folds: Vec<usize>,
}

impl<'a> Model for TableFile<'a> {
    ghost use Rattle.agg_tables.specs.Places.{FileOf, IsFile};

    ghost Value = { FileOf };

    ghost view = { λ a. record { catalog = a.catalog.now; declared = a.declared.now; header = a.header; folds = a.folds.items } };

    ghost invariant = { λ a. IsFile a.catalog.now a.declared.now a.header a.folds.items (record { levels = a.level_places.items; order = a.order.items; count = a.count_place; columns = a.columns.items; numbers = a.column_places.items; folds = a.column_folds.items }) };
}

// Where the columns of a table stand in the header of its file.
#[derive(Drop)]
struct Found {
    level_places: Vec<usize>,
    count_place: usize,
    columns: Vec<FileColumn>,
    column_places: Vec<usize>,
}

// What is summed up for the file of a table, and of which levels the values of its columns are, in the order of the columns.
#[derive(Drop)]
struct Plan {
    order: Vec<usize>,
    folds: Vec<Fold>,
    column_folds: Vec<usize>,
}

impl<'a> TableFile<'a> {
    /// Finds the columns of a table in a header.
    pub(crate) fn bind(
        alloc: Global,
        catalog: &'a Catalog,
        declared: &'a Declared,
        header: Record,
    ) -> Result<TableFile<'a>, AggFault>
        requires placed { IsPlaced catalog.now declared.now }
        ensures catalog { IfOk result (λ file. file.catalog ≡ catalog.entry.now) }
        ensures declared { IfOk result (λ file. file.declared ≡ declared.entry.now) }
        ensures header { IfOk result (λ file. file.header ≡ header) }
        ensures bound { IfOk result
            (λ file. IsBound file.catalog file.declared file.folds) }
        ensures sound { IfOk result (λ _. header_fault declared.entry.now header ≡ None) }
        ensures fault { IfErr result
            (λ e. (e ≡ AggFault.OutOfMemory) ⊎ (header_fault declared.entry.now header ≡ Some e)) }
    {
        let found = find_columns(alloc, declared, &header)?;
        let plan = plan_folds(alloc, catalog, declared, found.columns.as_slice())?;
        Ok(TableFile {
            catalog,
            declared,
            header,
            level_places: found.level_places,
            order: plan.order,
            count_place: found.count_place,
            columns: found.columns,
            column_places: found.column_places,
            folds: plan.folds,
            column_folds: plan.column_folds,
        })
    }

    /// The name of the column with the number of fact rows.
    pub(crate) fn fact_count(&self) -> &Text
        ensures { result.now ≡ self.now.declared.fact_count }
    {
        &self.declared.fact_count
    }

    /// What is summed up for the file.
    pub(crate) fn folds(&self) -> &[Fold]
        ensures { result.now ≡ self.now.folds }
    {
        self.folds.as_slice()
    }

    /// The columns of numbers that the file needs.
    pub(crate) fn columns(&self) -> &[FileColumn]
        ensures { result.now ≡ meaning.file_columns self.now.declared.measures }
    {
        self.columns.as_slice()
    }

    /// Which of the folds a column of numbers is.
    pub(crate) fn fold_place(&self, j: usize) -> usize
        requires { j < length (meaning.file_columns self.now.declared.measures) }
        ensures { slice_get self.now.folds result
            ≡ option_map
            (λ column. column.fold)
            (slice_get (meaning.file_columns self.now.declared.measures) j) }
    {
        self.column_folds[j]
    }

    /// Whether a record is one of a CSV file with this header.
    pub(crate) fn is_csv(&self, row: &Record) -> bool
        ensures { result ≡ is_csv self.now.header row.now }
    {
        row.is_csv(&self.header)
    }

    /// The field of a record in the column with the number of fact rows.
    pub(crate) fn count_field<'b>(&self, row: &'b Record) -> &'b str
        requires { is_csv self.now.header row.now ≡ true }
        ensures { result.now ≡ field_in self.now.header self.now.declared.fact_count row.entry.now }
    {
        row.text(self.count_place)
    }

    /// The field of a record in a column of numbers.
    pub(crate) fn number_field<'b>(&self, row: &'b Record, j: usize) -> &'b str
        requires csv { is_csv self.now.header row.now ≡ true }
        requires column { j < length (meaning.file_columns self.now.declared.measures) }
        ensures { Some result.now
            ≡ option_map
            (λ column. field_in self.now.header column.name row.entry.now)
            (slice_get (meaning.file_columns self.now.declared.measures) j) }
    {
        row.text(self.column_places[j])
    }

    /// Reads the values of the levels in the record of this number, in the order of the levels.
    pub(crate) fn read_levels(
        &self,
        row: &Record,
        n: u64,
        found: &mut Vec<ValueId>,
    ) -> Result<(), AggFault>
        requires { is_csv self.now.header row.now ≡ true }
        ensures sound { OnOk result
            (level_fault self.now.catalog self.now.header n row.now self.now.declared.levels
            ≡ None) }
        ensures found { OnOk result
            (map Some found.new.items
            ≡ map (level_value self.now.catalog self.now.header row.now)
            self.now.declared.levels) }
        ensures err { IfErr result
            (λ e. (e ≡ AggFault.OutOfMemory)
            ⊎ (level_fault self.now.catalog self.now.header n row.now self.now.declared.levels
            ≡ Some e)) }
    {
        found.clear();
        let levels = self.declared.levels.as_slice();
        for k in 0..levels.len() {
            let level = &levels[k];
            let text = row.text(self.level_places[k]);
            let Some(value) = self.catalog.find_value(level.column, text) else {
                return Err(AggFault::unknown_value(n, &level.name));
            };
            found.push(value)?;
        }
        Ok(())
    }

    /// Puts values of levels into the order of the columns.
    pub(crate) fn order_values(
        &self,
        found: &[ValueId],
        values: &mut Vec<ValueId>,
    ) -> Result<(), OutOfMemory>
        requires { length found.now ≡ length self.now.declared.levels }
        ensures { OnOk result
            (values.new.items
            ≡ chosen
            (order_below self.now.declared.levels (length self.now.catalog.columns)) found.now) }
    {
        values.clear();
        for place in self.order.as_slice() {
            values.push(value_at(found, *place))?;
        }
        Ok(())
    }

    /// Reads the values of the record of this number, in the order of the table's columns. The first buffer is for those of
    /// its levels.
    pub(crate) fn read_values(
        &self,
        row: &Record,
        n: u64,
        found: &mut Vec<ValueId>,
        values: &mut Vec<ValueId>,
    ) -> Result<(), AggFault>
        requires { is_csv self.now.header row.now ≡ true }
        ensures sound { OnOk result
            (level_fault self.now.catalog self.now.header n row.now self.now.declared.levels
            ≡ None) }
        ensures values { OnOk result
            (values.new.items
            ≡ record_values self.now.catalog self.now.declared self.now.header row.now) }
        ensures each { OnOk result
            (length values.new.items
            ≡ length
            (columns_below self.now.declared.levels (length self.now.catalog.columns))) }
        ensures err { IfErr result
            (λ e. (e ≡ AggFault.OutOfMemory)
            ⊎ (level_fault self.now.catalog self.now.header n row.now self.now.declared.levels
            ≡ Some e)) }
    {
        self.read_levels(row, n, found)?;
        self.order_values(found.as_slice(), values)?;
        Ok(())
    }
}

// Where the columns of a table stand in a header. The first that is not there is the fault.
fn find_columns(alloc: Global, declared: &Declared, header: &Record) -> Result<Found, AggFault>
    ensures levels { IfOk result
        (λ found. AreLevelsPlaced header.now declared.now.levels found.level_places.items) }
    ensures count { IfOk result
        (λ found. column_place declared.now.fact_count header.now ≡ Some found.count_place) }
    ensures columns { IfOk result
        (λ found. found.columns.items ≡ meaning.file_columns declared.now.measures) }
    ensures numbers { IfOk result
        (λ found. AreNumbersPlaced header.now found.columns.items found.column_places.items) }
    ensures sound { IfOk result (λ _. header_fault declared.now header.now ≡ None) }
    ensures fault { IfErr result
        (λ e. (e ≡ AggFault.OutOfMemory) ⊎ (header_fault declared.now header.now ≡ Some e)) }
{
    if !header.is_csv(header) {
        return Err(AggFault::NotCsv { row: 0 });
    }
    let level_places = place_levels(alloc, header, declared.levels.as_slice())?;
    let count_place = place_count(header, &declared.fact_count)?;
    let columns = file_columns(alloc, declared.measures.as_slice())?;
    let column_places = place_columns(alloc, header, columns.as_slice())?;
    Ok(Found {
        level_places,
        count_place,
        columns,
        column_places,
    })
}

// What is summed up for the columns of numbers of a table's file, and the order of its levels.
fn plan_folds(
    alloc: Global,
    catalog: &Catalog,
    declared: &Declared,
    columns: &[FileColumn],
) -> Result<Plan, OutOfMemory>
    requires placed { IsPlaced catalog.now declared.now }
    requires columns { columns.now ≡ meaning.file_columns declared.now.measures }
    ensures order { IfOk result
        (λ plan. plan.order.items
        ≡ order_below declared.now.levels (length catalog.now.columns)) }
    ensures bound { IfOk result (λ plan. IsBound catalog.now declared.now plan.folds.items) }
    ensures summed { IfOk result
        (λ plan. AreSummed plan.folds.items columns.now plan.column_folds.items) }
{
    let order = level_order(alloc, catalog, declared.levels.as_slice())?;
    let mut folds = folds_of(alloc, declared.measures.as_slice())?;
    let column_folds = place_folds(alloc, &mut folds, columns)?;
    Ok(Plan {
        order,
        folds,
        column_folds,
    })
}

fn value_at(found: &[ValueId], place: usize) -> ValueId
    requires { place < length found.now }
    ensures { result ≡ slice_index_or found.now place 0 }
{
    found[place]
}

// The columns of numbers of some measures, in order.
fn file_columns(alloc: Global, measures: &[TableMeasure]) -> Result<Vec<FileColumn>, OutOfMemory>
    ensures { IfOk result (λ columns. columns.items ≡ meaning.file_columns measures.now) }
{
    let mut columns = Vec::new(alloc);
    for own in measures {
        add_columns(&mut columns, own)?;
    }
    Ok(columns)
}

// Adds the columns of a measure.
fn add_columns(columns: &mut Vec<FileColumn>, own: &TableMeasure) -> Result<(), OutOfMemory>
    ensures { OnOk result
        (columns.new.items ≡ columns.old.items ++ meaning.columns_of own.now) }
{
    if own.aggregator != Aggregator::Avg {
        return add_column(columns, &own.column, own, own.aggregator);
    }
    add_column(columns, &own.column, own, Aggregator::Sum)?;
    match &own.count_column {
        None => Ok(()),
        Some(name) => add_column(columns, name, own, Aggregator::Count),
    }
}

fn add_column(
    columns: &mut Vec<FileColumn>,
    name: &Text,
    own: &TableMeasure,
    aggregator: Aggregator,
) -> Result<(), OutOfMemory>
    ensures { OnOk result
        (columns.new.items
        ≡ columns.old.items ++ meaning.file_column name.now own.now.measure aggregator ∷ []) }
{
    columns.push(FileColumn {
        name: name.copy()?,
        fold: Fold {
            measure: own.measure,
            aggregator,
        },
    })?;
    Ok(())
}

// Where the columns of some levels stand. The first that is not there is the fault.
fn place_levels(
    alloc: Global,
    header: &Record,
    levels: &[TableLevel],
) -> Result<Vec<usize>, AggFault>
    ensures placed { IfOk result (λ places. AreLevelsPlaced header.now levels.now places.items) }
    ensures all_there { IfOk result
        (λ _. missing_column (map (λ level. level.name) levels.now) header.now ≡ None) }
    ensures fault { IfErr result
        (λ e. (e ≡ AggFault.OutOfMemory)
        ⊎ (option_map NoColumn (missing_column (map (λ level. level.name) levels.now) header.now)
        ≡ Some e)) }
{
    let mut places = Vec::new(alloc);
    for level in levels {
        let Some(place) = header.find(level.name.as_str()) else {
            return Err(AggFault::missing_column(&level.name));
        };
        places.push(place)?;
    }
    Ok(places)
}

// Where the column of this name stands. That it is not there is the fault.
fn place_count(header: &Record, name: &Text) -> Result<usize, AggFault>
    ensures placed { IfOk result (λ place. column_place name.now header.now ≡ Some place) }
    ensures fault { IfErr result
        (λ e. (e ≡ AggFault.OutOfMemory)
        ⊎ (option_map NoColumn (missing_column (name.now ∷ []) header.now) ≡ Some e)) }
{
    match header.find(name.as_str()) {
        Some(place) => Ok(place),
        None => Err(AggFault::missing_column(name)),
    }
}

// Where some columns of numbers stand. The first that is not there is the fault.
fn place_columns(
    alloc: Global,
    header: &Record,
    columns: &[FileColumn],
) -> Result<Vec<usize>, AggFault>
    ensures placed { IfOk result (λ places. AreNumbersPlaced header.now columns.now places.items) }
    ensures all_there { IfOk result
        (λ _. missing_column (map (λ column. column.name) columns.now) header.now ≡ None) }
    ensures fault { IfErr result
        (λ e. (e ≡ AggFault.OutOfMemory)
        ⊎ (option_map NoColumn
        (missing_column (map (λ column. column.name) columns.now) header.now) ≡ Some e)) }
{
    let mut places = Vec::new(alloc);
    for column in columns {
        let Some(place) = header.find(column.name.as_str()) else {
            return Err(AggFault::missing_column(&column.name));
        };
        places.push(place)?;
    }
    Ok(places)
}

// In which of some folds each column is summed up. Folds that are wanting are put at the end.
fn place_folds(
    alloc: Global,
    folds: &mut Vec<Fold>,
    columns: &[FileColumn],
) -> Result<Vec<usize>, OutOfMemory>
    ensures summed { IfOk result (λ places. AreSummed folds.new.items columns.now places.items) }
    ensures own { OnOk result (take (length folds.old.items) folds.new.items ≡ folds.old.items) }
    ensures more { OnOk result
        ((test : Fold → Bool) → IsTrue (list_all test folds.old.items)
        → IsTrue (list_all (λ column. test column.fold) columns.now)
        → IsTrue (list_all test folds.new.items)) }
{
    let mut places = Vec::new(alloc);
    for column in columns {
        places.push(place_fold(folds, &column.fold)?)?;
    }
    Ok(places)
}

// The place of a fold among some, at their end where it was wanting.
fn place_fold(folds: &mut Vec<Fold>, fold: &Fold) -> Result<usize, OutOfMemory>
    ensures at { IfOk result (λ place. slice_get folds.new.items place ≡ Some fold.now) }
    ensures more { OnOk result
        ((folds.new.items ≡ folds.old.items)
        ⊎ (folds.new.items ≡ folds.old.items ++ fold.now ∷ [])) }
{
    if let Some(place) = find_fold(folds.as_slice(), fold) {
        return Ok(place);
    }
    folds.push(Fold {
        measure: fold.measure,
        aggregator: fold.aggregator,
    })?;
    Ok(folds.len() - 1)
}

fn find_fold(folds: &[Fold], fold: &Fold) -> Option<usize>
    ensures { IfSome result (λ place. slice_get folds.now place ≡ Some fold.now) }
{
    for i in 0..folds.len() {
        if folds[i] == *fold {
            return Some(i);
        }
    }
    None
}
