//! Where a cube's rows have the leaves of a dimension and the numbers of a measure.
ghost use Rattle.std.specs.Prelude.{◌≡◌, ◌==◌, IfOk, IsTrue, Some, bytes_eq, map, position};
ghost use Rattle.std.specs.List.{list_any};
ghost use Rattle.olap_meaning.specs.Catalog.{first_appearances};
ghost use Rattle.olap_catalog.specs.Columns.{column_texts};
ghost use Rattle.fact_reader.specs.BodyRows.{is_loadable};
ghost use Rattle.fact_reader.specs.Reading as jobs;

use catalog_tables::FieldColumn;
use olap_catalog::Catalog;
use olap_meaning::tables::Measure;
use olap_meaning::{Header, OutOfMemory};
use std::alloc::Global;

fn names_column(measures: &[Measure], column: &str) -> bool
    ensures { result ≡ list_any (λ measure. bytes_eq column.now measure.column) measures.now }
{
    measures
        .iter()
        .any(|measure| column == measure.column.as_str())
}

/// The place of a column among the different columns of some measures.
fn place_among(measures: &[Measure], column: &str) -> Option<usize>
    ensures { result
        ≡ position (bytes_eq column.now)
        (first_appearances (map (λ measure. measure.column) measures.now)) }
{
    let mut place = 0;
    for i in 0..measures.len() {
        if column == measures[i].column.as_str() {
            return Some(place);
        }
        let seen = names_column(&measures[..i], measures[i].column.as_str());
        if !seen {
            place += 1;
        }
    }
    None
}

/// The place of a header's measure among the fact columns of its cube.
pub(crate) fn fact_place(catalog: &Catalog, header: &Header) -> usize
    requires { IsTrue (is_loadable catalog.now header.now) }
    ensures { jobs.fact_place catalog.now header.now ≡ Some result }
{
    let measures = catalog.cube(header.cube).measures.as_slice();
    let measure = &measures[usize::from(header.measure.0)];
    place_among(measures, measure.column.as_str()).unwrap()
}

fn place_in(dimensions: &[u32], dimension: u32) -> Option<usize>
    ensures { result ≡ position (λ d. d == dimension) dimensions.now }
{
    dimensions.iter().position(|d| *d == dimension)
}

/// The place of the dimension of each of a header's columns among those of its cube.
pub(crate) fn places_of(
    alloc: Global,
    catalog: &Catalog,
    header: &Header,
) -> Result<Vec<usize>, OutOfMemory>
    requires { IsTrue (is_loadable catalog.now header.now) }
    ensures { IfOk result
        (λ places. map Some places.items
        ≡ map (λ column. jobs.place_of catalog.now header.now.cube column.0) header.now.columns) }
{
    let dimensions = catalog.cube(header.cube).dimensions.as_slice();
    let columns = header.columns.as_slice();
    let mut places = Vec::with_capacity(alloc, columns.len())?;
    for column in columns {
        let dimension = catalog.column(column.0).dimension;
        places.push_reserved(place_in(dimensions, dimension).unwrap());
    }
    Ok(places)
}

/// The texts of each of a header's columns.
pub(crate) fn fields_of<'a>(
    alloc: Global,
    catalog: &'a Catalog,
    header: &Header,
) -> Result<Vec<&'a FieldColumn>, OutOfMemory>
    requires { IsTrue (is_loadable catalog.now header.now) }
    ensures { IfOk result
        (λ fields. map (λ field. field.now) fields.items
        ≡ map (λ column. column_texts catalog.entry.now column.0) header.now.columns) }
{
    let columns = header.columns.as_slice();
    let mut fields = Vec::with_capacity(alloc, columns.len())?;
    for column in columns {
        fields.push_reserved(catalog.field_of(column.0));
    }
    Ok(fields)
}
