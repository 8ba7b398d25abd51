//! The cube of an aggregate table.
ghost use Rattle.std.specs.Prelude.{◌≡◌, ◌<◌, Some, length};
ghost use Rattle.olap_meaning.specs.Catalog.{table_cube};

use olap_catalog::Catalog;
use olap_meaning::CubeId;

/// The cube of an aggregate table, by the table's place in the schema.
pub fn cube_of(catalog: &Catalog, table: u32) -> CubeId
    requires known { table < length catalog.now.schema.aggregates }
    ensures cube { table_cube catalog.now table ≡ Some result }
    ensures within { result < length catalog.now.cubes }
{
    catalog.is_whole();
    let own = &catalog.schema().aggregates.as_slice()[table as usize];
    catalog.find_cube(own.cube.as_str()).unwrap()
}
