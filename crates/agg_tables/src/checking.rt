//! Checking a file against the aggregate table that it is to hold.
ghost use Rattle.std.specs.Prelude.{◌≡◌, ◌⊎◌, ◌<◌, ◌+◌, ◌≤◌, ◌∷◌, [], IfErr, IfOk, IfSome, IsTrue, None, OnOk, Some, length, map};
ghost use Rattle.olap_meaning.specs.Catalog.{table_cube};
ghost use Rattle.olap_meaning.specs.Records.{header_of};
ghost use Rattle.fact_reader.specs.BodyRows.{are_batches, rows_in};
ghost use Rattle.agg_tables.specs.Bound.{IsPlaced};
ghost use Rattle.agg_tables.specs.Files.{check_fault, fault_among, file_fault, header_fault};
ghost use Rattle.agg_tables.specs.Places.{IsBound};
ghost use Rattle.agg_tables.specs.Tables.{built, fold_over, folds_of};

use crate::checker::Checker;
use crate::declared::Declared;
use crate::fault::AggFault;
use crate::file::TableFile;
use crate::find::find_table;
use crate::folds::sum_up;
use crate::table::AggTable;
use csv_records::{Record, Rows};
use fact_versions::{Snapshot, Steps};
use olap_catalog::Catalog;
use olap_meaning::OutOfMemory;
use segment_body::Body;
use std::alloc::Global;
use std::sync::ledger::Ledger;

/// The declared table of this place in the schema over the rows of a snapshot, where the bytes of its file hold just what
/// `build` gives: a record for each group, in whatever order and with whatever further columns. Else the file's first
/// fault, from the header down (Aggregate Tables; here no file is believed).
pub fn check<L: Ledger>(
    alloc: Global,
    catalog: &Catalog,
    table: u32,
    bytes: &[u8],
    snapshot: &Snapshot,
    steps: &mut Steps<L>,
) -> Result<AggTable, AggFault>
    requires known { table < length catalog.now.schema.aggregates }
    requires fit { IfSome (table_cube catalog.now table)
        (λ cube. IsTrue (are_batches catalog.now cube snapshot.now)) }
    ensures table { IfOk result (λ made. built catalog.now table snapshot.now ≡ Some made) }
    ensures sound { OnOk result
        (check_fault catalog.now table bytes.now (rows_in snapshot.now) ≡ None) }
    ensures fault { IfErr result
        (λ e. (e ≡ AggFault.OutOfMemory)
        ⊎ (check_fault catalog.now table bytes.now (rows_in snapshot.now) ≡ Some e)) }
    ensures cost { OnOk result (steps.new ≡ steps.old + length (rows_in snapshot.now)) }
    ensures at_least { steps.old ≤ steps.new }
    ensures at_most { steps.new ≤ steps.old + length (rows_in snapshot.now) }
{
    let declared = find_table(alloc, catalog, table)?;
    let bodies = checked(alloc, catalog, &declared, bytes, snapshot, steps)?;
    Ok(AggTable::new(table, &declared, snapshot, bodies))
}

// What a table sums up, where a file holds it.
fn checked<L: Ledger>(
    alloc: Global,
    catalog: &Catalog,
    declared: &Declared,
    bytes: &[u8],
    snapshot: &Snapshot,
    steps: &mut Steps<L>,
) -> Result<Vec<Body>, AggFault>
    requires placed { IsPlaced catalog.now declared.now }
    requires fit { IsTrue (are_batches catalog.now declared.now.cube snapshot.now) }
    ensures folded { IfOk result
        (λ bodies. bodies.items
        ≡ map (fold_over catalog.now declared.now (rows_in snapshot.now))
        (folds_of declared.now.measures)) }
    ensures sound { OnOk result
        (file_fault catalog.now bytes.now (rows_in snapshot.now) declared.now ≡ None) }
    ensures fault { IfErr result
        (λ e. (e ≡ AggFault.OutOfMemory)
        ⊎ (file_fault catalog.now bytes.now (rows_in snapshot.now) declared.now ≡ Some e)) }
    ensures cost { OnOk result (steps.new ≡ steps.old + length (rows_in snapshot.now)) }
    ensures at_least { steps.old ≤ steps.new }
    ensures at_most { steps.new ≤ steps.old + length (rows_in snapshot.now) }
{
    let mut rows = Rows::new(alloc, bytes);
    checked_rows(alloc, catalog, declared, &mut rows, snapshot, steps)
}

// What a table sums up, where the header and the records of a file hold it.
fn checked_rows<L: Ledger>(
    alloc: Global,
    catalog: &Catalog,
    declared: &Declared,
    rows: &mut Rows<'_>,
    snapshot: &Snapshot,
    steps: &mut Steps<L>,
) -> Result<Vec<Body>, AggFault>
    requires placed { IsPlaced catalog.now declared.now }
    requires fit { IsTrue (are_batches catalog.now declared.now.cube snapshot.now) }
    ensures folded { IfOk result
        (λ bodies. bodies.items
        ≡ map (fold_over catalog.now declared.now (rows_in snapshot.now))
        (folds_of declared.now.measures)) }
    ensures sound { OnOk result
        (fault_among catalog.now rows.old (rows_in snapshot.now) declared.now ≡ None) }
    ensures fault { IfErr result
        (λ e. (e ≡ AggFault.OutOfMemory)
        ⊎ (fault_among catalog.now rows.old (rows_in snapshot.now) declared.now ≡ Some e)) }
    ensures cost { OnOk result (steps.new ≡ steps.old + length (rows_in snapshot.now)) }
    ensures at_least { steps.old ≤ steps.new }
    ensures at_most { steps.new ≤ steps.old + length (rows_in snapshot.now) }
{
    let file = file_of(alloc, catalog, declared, rows)?;
    let checker = checker_of(alloc, catalog, declared, file, snapshot, steps)?;
    checker.check_records(alloc, rows)?;
    Ok(own_bodies(checker, declared))
}

// The table over the header of its file, which is the first record.
fn file_of<'a>(
    alloc: Global,
    catalog: &'a Catalog,
    declared: &'a Declared,
    rows: &mut Rows<'_>,
) -> Result<TableFile<'a>, AggFault>
    requires placed { IsPlaced catalog.now declared.now }
    ensures catalog { IfOk result (λ file. file.catalog ≡ catalog.entry.now) }
    ensures declared { IfOk result (λ file. file.declared ≡ declared.entry.now) }
    ensures bound { IfOk result (λ file. IsBound file.catalog file.declared file.folds) }
    ensures first { IfOk result (λ file. rows.old ≡ file.header ∷ rows.new) }
    ensures sound { IfOk result (λ file. header_fault declared.entry.now file.header ≡ None) }
    ensures fault { IfErr result
        (λ e. (e ≡ AggFault.OutOfMemory)
        ⊎ (header_fault declared.entry.now (header_of rows.old) ≡ Some e)) }
{
    let mut header = Record::new(alloc);
    if !rows.next(&mut header)? {
        return Err(empty_file(declared));
    }
    TableFile::bind(alloc, catalog, declared, header)
}

// What compares the records of a file with the rows of a snapshot, which are summed up for it.
fn checker_of<'a, L: Ledger>(
    alloc: Global,
    catalog: &Catalog,
    declared: &Declared,
    file: TableFile<'a>,
    snapshot: &'a Snapshot,
    steps: &mut Steps<L>,
) -> Result<Checker<'a>, OutOfMemory>
    requires catalog { file.catalog ≡ catalog.now }
    requires declared { file.declared ≡ declared.now }
    requires bound { IsBound file.catalog file.declared file.folds }
    requires fit { IsTrue (are_batches catalog.now declared.now.cube snapshot.now) }
    ensures checker { IfOk result
        (λ checker. checker ≡ record { file = file.entry; rows = rows_in snapshot.entry.now }) }
    ensures cost { OnOk result (steps.new ≡ steps.old + length (rows_in snapshot.entry.now)) }
    ensures at_least { steps.old ≤ steps.new }
    ensures at_most { steps.new ≤ steps.old + length (rows_in snapshot.entry.now) }
{
    let bodies = sum_up(alloc, catalog, declared, file.folds(), snapshot, steps)?;
    Ok(Checker::new(file, snapshot, bodies))
}

// The bodies of a table: of those that were summed up for its file the first.
fn own_bodies(checker: Checker<'_>, declared: &Declared) -> Vec<Body>
    requires declared { checker.file.declared ≡ declared.now }
    requires bound { IsBound checker.file.catalog checker.file.declared checker.file.folds }
    ensures { result.items
        ≡ map (fold_over checker.entry.file.catalog declared.now checker.entry.rows)
        (folds_of declared.now.measures) }
{
    let mut bodies = checker.into_bodies();
    bodies.truncate(fold_count(declared));
    bodies
}

// The fault of a file without a record, which has no columns.
fn empty_file(declared: &Declared) -> AggFault
    ensures { (result ≡ AggFault.OutOfMemory) ⊎ (header_fault declared.now [] ≡ Some result) }
{
    match declared.levels.as_slice().first() {
        Some(level) => AggFault::missing_column(&level.name),
        None => AggFault::missing_column(&declared.fact_count),
    }
}

// How many folds a table keeps.
fn fold_count(declared: &Declared) -> usize
    ensures { result ≡ length (folds_of declared.now.measures) }
{
    let measures = declared.measures.len();
    if measures == 0 { 1 } else { measures }
}
