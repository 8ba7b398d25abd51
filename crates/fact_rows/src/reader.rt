//! Reading a batch of fact rows.
ghost use Rattle.std.specs.Prelude.{◌≡◌, ◌⊎◌, ◌<◌, ◌++◌, ◌∷◌, ◌+◌, ◌≤◌, ◌==◌, ◌||◌, [], Some, None, Ok, Err, true, length, suc, count_by, IfOk, IfErr, MatchOption, OnOk};
ghost use Rattle.std.specs.List.{list_all};
ghost use Rattle.csv_records.specs.Files.{file_records};
ghost use Rattle.olap_meaning.specs.Legal.{is_row};
ghost use Rattle.fact_rows.specs.BatchFiles.{batch_of, dimensions_of, header_fault, number_columns, of_cube, row_fault, row_of, rows_with};

use crate::bound::BoundCube;
use crate::fault::BatchFault;
use csv_records::{Record, Rows};
use fact_versions::Batch;
use olap_catalog::Catalog;
use olap_meaning::{CubeId, LeafId, OutOfMemory};
use std::alloc::Global;

/// The fact rows of a cube (Schema Guide, "Cubes"), from the bytes of a batch's file: a leaf for each of its
/// dimensions, and a number or NULL for each of its fact columns. A fault is the file's first, from the header down.
pub fn read_batch(
    alloc: Global,
    catalog: &Catalog,
    cube: CubeId,
    bytes: &[u8],
) -> Result<Batch, BatchFault>
    requires known { cube < length catalog.now.cubes }
    ensures ok { IfOk result (λ batch. batch_of catalog.now cube bytes.now ≡ Ok batch) }
    ensures fit { IfOk result (λ batch. list_all (is_row catalog.now cube) batch.rows ≡ true) }
    ensures err { IfErr result (λ fault.
        (fault ≡ BatchFault.OutOfMemory) ⊎ (batch_of catalog.now cube bytes.now ≡ Err fault)) }
{
    let mut rows = Rows::new(alloc, bytes);
    let mut header = Record::new(alloc);
    if !rows.next(&mut header)? {
        return read_no_row(alloc, catalog, cube);
    }
    let bound = BoundCube::bind(alloc, catalog, cube, header)?;
    read_rows(alloc, &bound, &mut rows, most_rows(bytes))
}

// The batch of an empty file, which has no columns.
fn read_no_row(alloc: Global, catalog: &Catalog, cube: CubeId) -> Result<Batch, BatchFault>
    requires known { cube < length catalog.now.cubes }
    ensures ok { IfOk result (λ batch.
        (header_fault catalog.now cube [] ≡ None) × (of_cube catalog.now cube (Ok []) ≡ Ok batch)) }
    ensures none { IfOk result (λ batch. batch.rows ≡ []) }
    ensures err { IfErr result (λ fault.
        (fault ≡ BatchFault.OutOfMemory) ⊎ (header_fault catalog.now cube [] ≡ Some fault)) }
{
    let bound = BoundCube::bind(alloc, catalog, cube, Record::new(alloc))?;
    Ok(bound.empty_batch(alloc)?)
}

// The records that are left, of which there are at most this many. One record is held at a time.
fn read_rows(
    alloc: Global,
    bound: &BoundCube<'_>,
    rows: &mut Rows<'_>,
    most: usize,
) -> Result<Batch, BatchFault>
    ensures ok { IfOk result (λ batch.
        of_cube bound.now.catalog bound.now.cube
        (rows_with bound.now.catalog bound.now.cube bound.now.header [] rows.old) ≡ Ok batch) }
    ensures fit { IfOk result (λ batch.
        list_all (is_row bound.now.catalog bound.now.cube) batch.rows ≡ true) }
    ensures err { IfErr result (λ fault.
        (fault ≡ BatchFault.OutOfMemory)
        ⊎ (rows_with bound.now.catalog bound.now.cube bound.now.header [] rows.old ≡ Err fault)) }
{
    let mut batch = bound.empty_batch(alloc)?;
    batch.reserve(most)?;
    let mut row = Record::new(alloc);
    let mut leaves = Vec::new(alloc);
    let mut numbers = Vec::new(alloc);
    while rows.next(&mut row)? {
        add_row(bound, &mut batch, &row, &mut leaves, &mut numbers)?;
    }
    Ok(batch)
}

// Adds the fact row of a record that has no fault. The buffers are used again for each.
fn add_row(
    bound: &BoundCube<'_>,
    batch: &mut Batch,
    row: &Record,
    leaves: &mut Vec<LeafId>,
    numbers: &mut Vec<Option<i64>>,
) -> Result<(), BatchFault>
    requires dimensions { batch.old.dimensions
        ≡ length (dimensions_of bound.now.catalog bound.now.cube) }
    requires columns { batch.old.columns
        ≡ length (number_columns bound.now.catalog bound.now.cube) }
    ensures sound { OnOk result
        (row_fault bound.now.catalog bound.now.cube bound.now.header (suc (length batch.old.rows))
        row.now ≡ None) }
    ensures ok { OnOk result
        (batch.new ≡ record batch.old {
          rows = batch.old.rows ++ row_of bound.now.catalog
              bound.now.cube bound.now.header row.now ∷ [];
        }) }
    ensures fit { OnOk result
        (is_row bound.now.catalog bound.now.cube
        (row_of bound.now.catalog bound.now.cube bound.now.header row.now) ≡ true) }
    ensures err { IfErr result (λ fault.
        (fault ≡ BatchFault.OutOfMemory)
        ⊎ (row_fault bound.now.catalog bound.now.cube bound.now.header
        (suc (length batch.old.rows)) row.now ≡ Some fault)) }
{
    let n = batch.len() + 1;
    if !bound.is_csv(row) {
        return Err(BatchFault::NotCsv { row: n });
    }
    bound.read_leaves(row, n, leaves)?;
    bound.read_numbers(row, n, numbers)?;
    batch.push(leaves.as_slice(), numbers.as_slice())?;
    Ok(())
}

// The greatest number of records that this many line ends allow.
fn most_rows(bytes: &[u8]) -> usize
    ensures { result ≡ count_by (λ b. (b == 10) || (b == 13)) bytes.now + 1 }
{
    line_ends(bytes) + 1
}

// How many bytes may end a line.
fn line_ends(bytes: &[u8]) -> usize
    ensures ends { result ≡ count_by (λ b. (b == 10) || (b == 13)) bytes.now }
    ensures bound { result ≤ length bytes.now }
{
    bytes
        .iter()
        .filter(|b| **b == b'\n' || **b == b'\r')
        .count()
}
