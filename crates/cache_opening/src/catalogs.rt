//! The catalog of a schema's file.
ghost use Rattle.std.specs.Prelude.{◌≡◌, ◌<◌, [], Err, IfErr, IfOk, IsSomeAnd, Ok, length, map, slice_get};
ghost use Rattle.olap_meaning.specs.Schema.{IsWithinLimits, levels_of};
ghost use Rattle.olap_meaning.specs.Whole.{IsWhole};
ghost use Rattle.cube_schema.specs.Schemas.{schema_of};
ghost use Rattle.dim_tables.specs.TableFiles.{table_of};
ghost use Rattle.olap_catalog.specs.Parts.{records_in};
ghost use Rattle.cache_opening.specs.Asking.{Comes, Leads, read_by};
ghost use Rattle.cache_opening.specs.Opening.{catalog_from, schema_from, table_from, tables_from};
ghost use Rattle.cache_opening.specs.Steps.{HasCubes, IsOrMemory};

use crate::fault::OpenFault;
use crate::files::fetch;
use catalog_tables::Table;
use cube_schema::{SchemaFault, read_schema};
use dim_tables::{TableFault, read_table};
use olap_catalog::{Catalog, build_catalog};
use olap_meaning::schema::Schema;
use olap_meaning::{List, OutOfMemory, Text};
use outside::Depot;
use std::alloc::Global;

// The schema that the bytes of a file are.
fn schema_in(alloc: Global, bytes: &[u8]) -> Result<Schema, OpenFault>
    ensures ok { IfOk result (λ schema. schema_of bytes.now ≡ Ok schema) }
    ensures whole { IfOk result (λ schema. IsWhole schema) }
    ensures fault { IfErr result (λ fault.
        Comes (read_by OpenFault.Schema (schema_of bytes.now)) [] (Err fault)) }
{
    match read_schema(alloc, bytes) {
        Ok(schema) => Ok(schema),
        Err(SchemaFault::OutOfMemory) => Err(OpenFault::OutOfMemory),
        Err(fault) => Err(OpenFault::Schema { fault }),
    }
}

// The schema of a file.
fn open_schema<D: Depot>(alloc: Global, depot: &mut D, file: &str) -> Result<Schema, OpenFault>
    ensures read { Leads (D.files depot.old) (D.answers depot.old) (D.answers depot.new)
        (schema_from file.now) result }
    ensures whole { IfOk result (λ schema. IsWhole schema) }
    ensures same_files { D.files depot.new ≡ D.files depot.old }
{
    let bytes = fetch(alloc, depot, file)?;
    schema_in(alloc, bytes.as_slice())
}

// The table that the bytes of a dimension's file are.
fn table_in(
    alloc: Global,
    schema: &Schema,
    dimension: u32,
    bytes: &[u8],
) -> Result<Table, OpenFault>
    requires known { dimension < length schema.now.dimensions }
    requires limits { IsWithinLimits schema.now }
    ensures ok { IfOk result (λ table.
        IsSomeAnd (slice_get schema.now.dimensions dimension)
        (λ d. table_of d bytes.now ≡ Ok table.records)) }
    ensures levels { IfOk result (λ table.
        IsSomeAnd (slice_get schema.now.dimensions dimension)
        (λ d. table.levels ≡ length (levels_of d))) }
    ensures fault { IfErr result (λ fault.
        IsSomeAnd (slice_get schema.now.dimensions dimension)
        (λ d. Comes (read_by (OpenFault.Table d.table) (table_of d bytes.now)) [] (Err fault))) }
{
    match read_table(alloc, schema, dimension, bytes) {
        Ok(table) => Ok(table),
        Err(TableFault::OutOfMemory) => Err(OpenFault::OutOfMemory),
        Err(fault) => Err(refused_table(alloc, table_file(schema, dimension), fault)),
    }
}

// The fault of the file of a dimension's table.
fn refused_table(alloc: Global, file: &str, fault: TableFault) -> OpenFault
    ensures { IsOrMemory (OpenFault.Table file.now fault) result }
{
    match Text::from_str(alloc, file) {
        Ok(file) => OpenFault::Table { file, fault },
        Err(OutOfMemory) => OpenFault::OutOfMemory,
    }
}

// The name of the file of a dimension's table.
fn table_file(schema: &Schema, dimension: u32) -> &str
    requires { dimension < length schema.now.dimensions }
    ensures { IsSomeAnd (slice_get schema.now.dimensions dimension) (λ d. result.now ≡ d.table) }
{
    let dimension = &schema.dimensions.as_slice()[dimension as usize];
    dimension.table.as_str()
}

// The table of a dimension.
fn open_table<D: Depot>(
    alloc: Global,
    depot: &mut D,
    schema: &Schema,
    dimension: u32,
) -> Result<Table, OpenFault>
    requires known { dimension < length schema.now.dimensions }
    requires limits { IsWithinLimits schema.now }
    ensures ok { IfOk result (λ table.
        IsSomeAnd (slice_get schema.now.dimensions dimension)
        (λ d. Leads (D.files depot.old) (D.answers depot.old) (D.answers depot.new)
        (table_from d) (Ok table.records))) }
    ensures levels { IfOk result (λ table.
        IsSomeAnd (slice_get schema.now.dimensions dimension)
        (λ d. table.levels ≡ length (levels_of d))) }
    ensures fault { IfErr result (λ fault.
        IsSomeAnd (slice_get schema.now.dimensions dimension)
        (λ d. Leads (D.files depot.old) (D.answers depot.old) (D.answers depot.new)
        (table_from d) (Err fault))) }
    ensures same_files { D.files depot.new ≡ D.files depot.old }
{
    let bytes = fetch(alloc, depot, table_file(schema, dimension))?;
    table_in(alloc, schema, dimension, bytes.as_slice())
}

// The tables of the dimensions of a schema, in order.
fn open_tables<D: Depot>(
    alloc: Global,
    depot: &mut D,
    schema: &Schema,
) -> Result<List<Table>, OpenFault>
    requires limits { IsWithinLimits schema.now }
    ensures ok { IfOk result (λ tables.
        Leads (D.files depot.old) (D.answers depot.old) (D.answers depot.new)
        (tables_from schema.now.dimensions) (Ok (records_in tables))) }
    ensures levels { IfOk result (λ tables.
        map (λ t. t.levels) tables ≡ map (λ d. length (levels_of d)) schema.now.dimensions) }
    ensures fault { IfErr result (λ fault.
        Leads (D.files depot.old) (D.answers depot.old) (D.answers depot.new)
        (tables_from schema.now.dimensions) (Err fault)) }
    ensures same_files { D.files depot.new ≡ D.files depot.old }
{
    let mut tables = List::new(alloc);
    for dimension in 0..schema.dimensions.len() {
        let table = open_table(alloc, depot, schema, dimension as u32)?;
        tables.push(table)?;
    }
    Ok(tables)
}

/// The catalog of a schema's file, with the tables of its dimensions. No table is fetched for a schema with a fault.
pub(crate) fn open_catalog<D: Depot>(
    alloc: Global,
    depot: &mut D,
    file: &str,
) -> Result<Catalog, OpenFault>
    ensures read { Leads (D.files depot.old) (D.answers depot.old) (D.answers depot.new)
        (catalog_from file.now) result }
    ensures whole { IfOk result (λ catalog. HasCubes catalog) }
    ensures same_files { D.files depot.new ≡ D.files depot.old }
{
    let schema = open_schema(alloc, depot, file)?;
    let tables = open_tables(alloc, depot, &schema)?;
    Ok(build_catalog(alloc, schema, tables)?)
}
