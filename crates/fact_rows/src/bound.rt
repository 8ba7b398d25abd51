//! A cube over the header of a batch's file: where its columns stand, and what it takes from a record.
ghost use Rattle.std.specs.Prelude.{◌≡◌, ◌⊎◌, ◌<◌, ◌||◌, if◌then◌else◌, is_some, [], None, Some, true, length, IfOk, IfErr, OnOk};
ghost use Rattle.std.specs.List.{list_all};
ghost use Rattle.std.specs.Str.{is_utf8};
ghost use Rattle.olap_meaning.specs.Legal.{is_row};
ghost use Rattle.olap_meaning.specs.Records.{is_csv, is_null, number};
ghost use Rattle.fact_rows.specs.BatchFiles.{dimensions_of, foreign_keys, header_fault, key_fault, leaves_in, number_columns, number_fault, numbers_in, row_of, uses_of};

use crate::columns::{KeyColumn, NumberColumn, place_keys, place_numbers};
use crate::fault::BatchFault;
use csv_records::{Record, number};
use fact_versions::Batch;
use olap_catalog::Catalog;
use olap_meaning::schema::SchemaUse;
use olap_meaning::{CubeId, LeafId, OutOfMemory};
use std::alloc::Global;
use std::marker::Model;

/// A cube over the header of a batch's file.
#[derive(Drop)]
pub(crate) struct BoundCube<'a> {
    catalog: &'a Catalog,
    cube: CubeId,
    header: Record,
    keys: Vec<KeyColumn>,
    numbers: Vec<NumberColumn>,
}

impl<'a> Model for BoundCube<'a> {
    ghost use Rattle.fact_rows.specs.Bound.{ArePlaced, Bound};

    ghost Value = { Bound };

    ghost view = { λ b. record { catalog = b.catalog.now; cube = b.cube; header = b.header } };

    ghost invariant = { λ b. ArePlaced b.catalog.now b.cube b.header b.keys.items b.numbers.items };
}

impl<'a> BoundCube<'a> {
    /// Finds the columns of a cube in a header.
    #[tactic(auto, using(crate::proofs::UseFacts::paired_in))]
    pub(crate) fn bind(
        alloc: Global,
        catalog: &'a Catalog,
        cube: CubeId,
        header: Record,
    ) -> Result<BoundCube<'a>, BatchFault>
        requires known { cube < length catalog.now.cubes }
        ensures bound { IfOk result (λ b.
            b ≡ record { catalog = catalog.entry.now; cube = cube; header = header }) }
        ensures sound { IfOk result (λ _. header_fault catalog.entry.now cube header ≡ None) }
        ensures fault { IfErr result (λ e.
            (e ≡ BatchFault.OutOfMemory) ⊎ (header_fault catalog.entry.now cube header ≡ Some e)) }
    {
        if !header.is_csv(&header) {
            return Err(BatchFault::NotCsv { row: 0 });
        }
        catalog.is_whole();
        let parts = catalog.cube(cube);
        let keys = place_keys(
            alloc,
            &header,
            uses_of(catalog, cube),
            parts.dimensions.as_slice(),
        )?;
        let numbers = place_numbers(alloc, &header, parts.measures.as_slice())?;
        Ok(BoundCube {
            catalog,
            cube,
            header,
            keys,
            numbers,
        })
    }

    /// The batch of no row of the cube.
    pub(crate) fn empty_batch(&self, alloc: Global) -> Result<Batch, OutOfMemory>
        ensures { IfOk result (λ batch. batch ≡ record {
          dimensions = length (dimensions_of self.now.catalog self.now.cube);
          columns = length (number_columns self.now.catalog self.now.cube);
          rows = [];
        }) }
    {
        let dimensions = count_of(self.keys.as_slice().len())?;
        let columns = count_of(self.numbers.as_slice().len())?;
        Batch::new(alloc, dimensions, columns)
    }

    /// Whether a record is one of a CSV file with this header.
    pub(crate) fn is_csv(&self, row: &Record) -> bool
        ensures { result ≡ is_csv self.now.header row.now }
    {
        row.is_csv(&self.header)
    }

    /// Reads the leaves that the foreign keys mean in the record of this number.
    pub(crate) fn read_leaves(
        &self,
        row: &Record,
        n: u64,
        leaves: &mut Vec<LeafId>,
    ) -> Result<(), BatchFault>
        requires { is_csv self.now.header row.now ≡ true }
        ensures sound { OnOk result
            (key_fault self.now.catalog self.now.header n row.now
            (foreign_keys self.now.catalog self.now.cube) ≡ None) }
        ensures each { OnOk result
            (length leaves.new.items ≡ length (dimensions_of self.now.catalog self.now.cube)) }
        ensures fit { OnOk result
            (is_row self.now.catalog self.now.cube
            (row_of self.now.catalog self.now.cube self.now.header row.now) ≡ true) }
        ensures ok { OnOk result
            (leaves.new.items ≡ leaves_in self.now.catalog self.now.header row.now
            (foreign_keys self.now.catalog self.now.cube)) }
        ensures err { IfErr result (λ e.
            (e ≡ BatchFault.OutOfMemory)
            ⊎ (key_fault self.now.catalog self.now.header n row.now
            (foreign_keys self.now.catalog self.now.cube) ≡ Some e)) }
    {
        leaves.clear();
        for key in self.keys.as_slice() {
            let Some(leaf) = self.catalog.find_leaf(key.dimension, row.text(key.place)) else {
                return Err(BatchFault::unknown_key(n, &key.name));
            };
            leaves.push(leaf)?;
        }
        Ok(())
    }

    /// Reads the numbers of the fact columns in the record of this number: None is NULL.
    pub(crate) fn read_numbers(
        &self,
        row: &Record,
        n: u64,
        numbers: &mut Vec<Option<i64>>,
    ) -> Result<(), BatchFault>
        requires { is_csv self.now.header row.now ≡ true }
        ensures sound { OnOk result
            (number_fault self.now.header n row.now
            (number_columns self.now.catalog self.now.cube) ≡ None) }
        ensures ok { OnOk result
            (numbers.new.items ≡ numbers_in self.now.header row.now
            (number_columns self.now.catalog self.now.cube)) }
        ensures err { IfErr result (λ e.
            (e ≡ BatchFault.OutOfMemory)
            ⊎ (number_fault self.now.header n row.now
            (number_columns self.now.catalog self.now.cube) ≡ Some e)) }
    {
        numbers.clear();
        for column in self.numbers.as_slice() {
            let Some(value) = value_of(row.field(column.place)) else {
                return Err(BatchFault::not_number(n, &column.name));
            };
            numbers.push(value)?;
        }
        Ok(())
    }
}

// The uses of a cube, as the schema has them.
fn uses_of(catalog: &Catalog, cube: CubeId) -> &[SchemaUse]
    ensures { result.now ≡ uses_of catalog.entry.now cube }
{
    match catalog.schema().cubes.get(cube.0 as usize) {
        Some(parts) => parts.dimensions.as_slice(),
        None => &[],
    }
}

// A number of columns. More than can be counted find no room.
fn count_of(columns: usize) -> Result<u32, OutOfMemory>
    ensures { IfOk result (λ count. count ≡ columns) }
{
    if columns > u32::MAX as usize {
        return Err(OutOfMemory);
    }
    Ok(columns as u32)
}

// The value of a field: NULL where it is empty. There is none where it is neither empty nor a number.
fn value_of(field: &[u8]) -> Option<Option<i64>>
    ensures { result ≡ (if is_null field.now || is_some (number field.now)
        then Some (number field.now)
        else None) }
{
    if field.is_empty() {
        return Some(None);
    }
    match number(field) {
        Some(value) => Some(Some(value)),
        None => None,
    }
}
