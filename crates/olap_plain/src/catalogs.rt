//! The meanings of a catalog's columns, values and names as plain, slow code. Tests compare faster bodies with it.
ghost use Rattle.std.specs.Prelude.{◌≡◌, ◌≤◌, ◌<◌, ◌+◌, ◌&&◌, ◌==◌, not, length, map, position, slice_get, option_copied, option_and_then, bytes_eq, nat_lt, Option, Some, None};
ghost use Rattle.std.specs.List.{list_any, list_all, zip};
ghost use Rattle.std.specs.Str.{str_to_ascii_lowercase};
ghost use Rattle.olap_meaning.specs.History.{is_some_and};
ghost use Rattle.olap_meaning.specs.Catalog as meaning;
ghost use Rattle.olap_meaning.specs.Worth as worth;

use olap_meaning::schema::SchemaAggregate;
use olap_meaning::tables::{Catalog, Column, Cube, Measure, Record, Row};
use olap_meaning::{Cell, ColumnId, CubeId, LeafId, Text, ValueId};

/// The records of a dimension's table.
pub fn records(catalog: &Catalog, dimension: u32) -> &[Record]
    ensures { result.now ≡ meaning.records catalog.now dimension }
{
    match catalog.dimensions.get(dimension as usize) {
        None => &[],
        Some(d) => d.records.as_slice(),
    }
}

fn field_is(leaf: &Record, field: u32, text: &str) -> bool
    ensures { result ≡ is_some_and (bytes_eq text.now) (slice_get leaf.now.fields field) }
{
    match leaf.fields.get(field as usize) {
        None => false,
        Some(other) => text == other.as_str(),
    }
}

fn some_field_is(records: &[Record], field: u32, text: &str) -> bool
    ensures { result
        ≡ list_any (λ r. is_some_and (bytes_eq text.now) (slice_get r.fields field)) records.now }
{
    records.iter().any(|r| field_is(r, field, text))
}

fn has_text(records: &[Record], field: u32, text: &str) -> bool
    ensures { result ≡ list_any (bytes_eq text.now) (meaning.field_texts field records.now) }
{
    some_field_is(records, field, text)
}

fn adds_value(earlier: &[Record], field: u32, leaf: &Record) -> bool
    ensures { result
        ≡ is_some_and
        (λ text. not (list_any (bytes_eq text) (meaning.field_texts field earlier.now)))
        (slice_get leaf.now.fields field) }
{
    match leaf.fields.get(field as usize) {
        None => false,
        Some(text) => !has_text(earlier, field, text.as_str()),
    }
}

fn count_values(records: &[Record], field: u32) -> usize
    ensures { result ≡ length (meaning.first_appearances (meaning.field_texts field records.now)) }
{
    let mut count = 0;
    for i in 0..records.len() {
        let new = adds_value(&records[..i], field, &records[i]);
        if new {
            count += 1;
        }
    }
    count
}

fn number_in(records: &[Record], field: u32, text: &str) -> Option<usize>
    ensures { result
        ≡ position (bytes_eq text.now)
        (meaning.first_appearances (meaning.field_texts field records.now)) }
{
    let mut count = 0;
    for i in 0..records.len() {
        let found = field_is(&records[i], field, text);
        if found {
            return Some(count);
        }
        let new = adds_value(&records[..i], field, &records[i]);
        if new {
            count += 1;
        }
    }
    None
}

/// How many values a column has.
pub fn value_count(catalog: &Catalog, column: ColumnId) -> usize
    ensures { result ≡ length (meaning.values catalog.now column) }
{
    match catalog.columns.get(column.0 as usize) {
        None => 0,
        Some(c) => count_values(records(catalog, c.dimension), c.field),
    }
}

/// The number of a value of a column, by its text.
pub fn value_number(catalog: &Catalog, column: ColumnId, text: &str) -> Option<usize>
    ensures { result ≡ meaning.value_number catalog.now column text.now }
{
    match catalog.columns.get(column.0 as usize) {
        None => None,
        Some(c) => number_in(records(catalog, c.dimension), c.field, text),
    }
}

fn leaf_text<'a>(catalog: &'a Catalog, column: &Column, leaf: LeafId) -> Option<&'a str>
    ensures { option_copied result
        ≡ option_and_then
        (λ r. slice_get r.fields column.now.field)
        (slice_get (meaning.records catalog.now column.now.dimension) leaf) }
{
    match records(catalog, column.dimension).get(leaf.0 as usize) {
        None => None,
        Some(of_leaf) => match of_leaf.fields.get(column.field as usize) {
            None => None,
            Some(text) => Some(text.as_str()),
        },
    }
}

/// The value of a leaf in a column.
pub fn leaf_value(catalog: &Catalog, column: ColumnId, leaf: LeafId) -> Option<usize>
    ensures { result ≡ meaning.leaf_value catalog.now column leaf }
{
    match catalog.columns.get(column.0 as usize) {
        None => None,
        Some(c) => match leaf_text(catalog, c, leaf) {
            None => None,
            Some(text) => number_in(records(catalog, c.dimension), c.field, text),
        },
    }
}

fn place_of(dimensions: &[u32], dimension: u32) -> Option<usize>
    ensures { result ≡ position (λ d. d == dimension) dimensions.now }
{
    dimensions.iter().position(|d| *d == dimension)
}

fn leaf_at(cube: &Cube, row: &Row, dimension: u32) -> Option<LeafId>
    ensures { result
        ≡ option_and_then (slice_get row.now.leaves)
        (position (λ d. d == dimension) cube.now.dimensions) }
{
    match place_of(cube.dimensions.as_slice(), dimension) {
        None => None,
        Some(place) => match row.leaves.get(place) {
            None => None,
            Some(leaf) => Some(*leaf),
        },
    }
}

fn leaf_in(catalog: &Catalog, cube: CubeId, row: &Row, dimension: u32) -> Option<LeafId>
    ensures { result ≡ worth.leaf_in catalog.now cube row.now dimension }
{
    match catalog.cubes.get(cube.0 as usize) {
        None => None,
        Some(c) => leaf_at(c, row, dimension),
    }
}

pub(crate) fn row_value(
    catalog: &Catalog,
    cube: CubeId,
    row: &Row,
    column: ColumnId,
) -> Option<usize>
    ensures { result ≡ worth.row_value catalog.now cube row.now column }
{
    match catalog.columns.get(column.0 as usize) {
        None => None,
        Some(c) => match leaf_in(catalog, cube, row, c.dimension) {
            None => None,
            Some(leaf) => leaf_value(catalog, column, leaf),
        },
    }
}

fn row_has(catalog: &Catalog, cube: CubeId, row: &Row, column: ColumnId, value: ValueId) -> bool
    ensures { result
        ≡ is_some_and (λ v. v == value) (worth.row_value catalog.now cube row.now column) }
{
    match row_value(catalog, cube, row, column) {
        None => false,
        Some(v) => v == value.0 as usize,
    }
}

fn row_has_all(catalog: &Catalog, cube: CubeId, row: &Row, at: &[(ColumnId, ValueId)]) -> bool
    ensures { result
        ≡ list_all
        (λ pair. is_some_and
        (λ v. v == pair.1) (worth.row_value catalog.now cube row.now pair.0)) at.now }
{
    at.iter()
        .all(|pair| row_has(catalog, cube, row, pair.0, pair.1))
}

/// Whether a row is in a cell.
pub fn row_in(catalog: &Catalog, cell: &Cell, row: &Row) -> bool
    ensures { result ≡ worth.row_in catalog.now cell.now row.now }
{
    row_has_all(catalog, cell.cube, row, cell.at.as_slice())
}

fn names_fact_column(measures: &[Measure], column: &str) -> bool
    ensures { result ≡ list_any (λ m. bytes_eq column.now m.column) measures.now }
{
    measures.iter().any(|m| column == m.column.as_str())
}

fn has_fact_column(measures: &[Measure], column: &str) -> bool
    ensures { result ≡ list_any (bytes_eq column.now) (map (λ m. m.column) measures.now) }
{
    names_fact_column(measures, column)
}

fn adds_fact_column(earlier: &[Measure], measure: &Measure) -> bool
    ensures { result
        ≡ not (list_any (bytes_eq measure.now.column) (map (λ m. m.column) earlier.now)) }
{
    !has_fact_column(earlier, measure.column.as_str())
}

fn count_fact_columns(measures: &[Measure]) -> usize
    ensures { result ≡ length (meaning.first_appearances (map (λ m. m.column) measures.now)) }
{
    let mut count = 0;
    for i in 0..measures.len() {
        let new = adds_fact_column(&measures[..i], &measures[i]);
        if new {
            count += 1;
        }
    }
    count
}

/// How many fact columns a cube has.
pub fn fact_column_count(cube: &Cube) -> usize
    ensures { result ≡ length (meaning.fact_columns cube.now) }
{
    count_fact_columns(cube.measures.as_slice())
}

fn exact_match(name: &str, names: &[Text]) -> Option<usize>
    ensures { result ≡ position (bytes_eq name.now) names.now }
{
    names.iter().position(|other| name == other.as_str())
}

fn is_same_but_case(name: &str, other: &str) -> bool
    ensures { result
        ≡ bytes_eq (str_to_ascii_lowercase name.now) (str_to_ascii_lowercase other.now) }
{
    name.eq_ignore_ascii_case(other)
}

fn match_but_case(name: &str, names: &[Text]) -> Option<usize>
    ensures { result
        ≡ position
        (λ other. bytes_eq (str_to_ascii_lowercase name.now)
        (str_to_ascii_lowercase other)) names.now }
{
    names
        .iter()
        .position(|other| is_same_but_case(name, other.as_str()))
}

fn cube_place(cubes: &[Cube], name: &str) -> Option<usize>
    ensures { result ≡ position (λ cube. bytes_eq name.now cube.name) cubes.now }
{
    cubes.iter().position(|cube| name == cube.name.as_str())
}

fn cube_of(catalog: &Catalog, declared: &SchemaAggregate) -> Option<usize>
    ensures { result
        ≡ position (λ cube. bytes_eq declared.now.cube cube.name) catalog.now.cubes }
{
    cube_place(catalog.cubes.as_slice(), declared.cube.as_str())
}

/// The cube of an aggregate table, by the table's place in the schema.
pub fn table_cube(catalog: &Catalog, table: u32) -> Option<usize>
    ensures { result ≡ meaning.table_cube catalog.now table }
{
    match catalog.schema.aggregates.get(table as usize) {
        None => None,
        Some(declared) => cube_of(catalog, declared),
    }
}

/// The place of the name that a name means: its first exact match, or else its first match except for the case of
/// ASCII letters.
pub fn match_of(name: &str, names: &[Text]) -> Option<usize>
    ensures { result ≡ meaning.match_of name.now names.now }
{
    match exact_match(name, names) {
        Some(place) => Some(place),
        None => match_but_case(name, names),
    }
}
