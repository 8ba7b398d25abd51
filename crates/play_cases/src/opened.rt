//! The catalog of the sample files, and batches of its cube, read from the folder that the program runs in.
ghost use Rattle.std.specs.Prelude.{◌≡◌, ◌<◌, IfOk, IsTrue, length, map};
ghost use Rattle.olap_meaning.specs.Schema.{IsWithinLimits, levels_of};
ghost use Rattle.olap_meaning.specs.Whole.{IsWhole};
ghost use Rattle.fact_reader.specs.BodyRows.{is_batch};

use crate::lines::Wrong;
use catalog_tables::Table;
use cube_schema::read_schema;
use dim_tables::read_table;
use fact_rows::read_batch;
use fact_versions::Batch;
use olap_catalog::{Catalog, build_catalog};
use olap_meaning::schema::Schema;
use olap_meaning::{CubeId, List};
use std::alloc::Global;
use std::fs;
use std::rt::Files;
use std::sync::Arc;

// The schema's file, and those of its dimensions' tables in the schema's order.
const SCHEMA: &str = "sales.json";

const TABLES: [&str; 2] = ["time.csv", "store.csv"];

// The bytes of a file.
fn read_file(rt: &(impl Files + AllocGlobal), name: &str) -> Result<Vec<u8>, Wrong> {
    match fs::read(rt, name) {
        Ok(bytes) => Ok(bytes),
        Err(_) => Err(Wrong::Words("no file")),
    }
}

fn schema(rt: &(impl Files + AllocGlobal)) -> Result<Schema, Wrong>
    ensures { IfOk result (λ schema. IsWhole schema) }
{
    let bytes = read_file(rt, SCHEMA)?;
    match read_schema(rt.alloc(), bytes.as_slice()) {
        Ok(schema) => Ok(schema),
        Err(_) => Err(Wrong::Words("no schema")),
    }
}

// The files of the tables.
fn table_files(rt: &(impl Files + AllocGlobal)) -> Result<Vec<Vec<u8>>, Wrong> {
    let mut files = Vec::new(rt.alloc());
    for name in &TABLES {
        files.push(read_file(rt, name)?)?;
    }
    Ok(files)
}

fn tables(alloc: Global, schema: &Schema, files: &[Vec<u8>]) -> Result<List<Table>, Wrong>
    requires { IsWithinLimits schema.now }
    ensures { IfOk result
        (λ tables. map (λ t. t.levels) tables
        ≡ map (λ d. length (levels_of d)) schema.now.dimensions) }
{
    let mut tables = List::new(alloc);
    for dimension in 0..schema.dimensions.len() {
        let Some(file) = files.get(dimension) else {
            return Err(Wrong::Words("no table"));
        };
        let Ok(table) = read_table(alloc, schema, dimension as u32, file.as_slice()) else {
            return Err(Wrong::Words("no table"));
        };
        tables.push(table)?;
    }
    Ok(tables)
}

/// The catalog of the sample schema and tables.
pub(crate) fn catalog(rt: &(impl Files + AllocGlobal)) -> Result<Arc<Catalog>, Wrong> {
    let alloc = rt.alloc();
    let files = table_files(rt)?;
    let schema = schema(rt)?;
    let tables = tables(alloc, &schema, files.as_slice())?;
    match build_catalog(alloc, schema, tables) {
        Ok(catalog) => Ok(Arc::new(alloc, catalog)?),
        Err(_) => Err(Wrong::OutOfMemory),
    }
}

/// The batch of a file of the first cube.
pub(crate) fn batch(
    rt: &(impl Files + AllocGlobal),
    catalog: &Catalog,
    name: &str,
) -> Result<Batch, Wrong>
    ensures known { IfOk result (λ batch. 0 < length catalog.now.cubes) }
    ensures fit { IfOk result (λ batch. IsTrue (is_batch catalog.now 0 batch)) }
{
    if catalog.cube_count() == 0 {
        return Err(Wrong::Words("no cube"));
    }
    let bytes = read_file(rt, name)?;
    match read_batch(rt.alloc(), catalog, CubeId(0), bytes.as_slice()) {
        Ok(batch) => Ok(batch),
        Err(_) => Err(Wrong::Words("no batch")),
    }
}
