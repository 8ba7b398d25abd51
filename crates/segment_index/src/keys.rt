//! Keys by which loads with few cells are found by a cell's values. A header with few cells has the key of each of them; any
//! other has one key, of its cube, measure and columns. Keys of different cells may be equal by chance, so what is found by a
//! key is still to be compared with the cell.
ghost use Rattle.std.specs.Prelude.{◌≡◌, ◌+◌, ◌*◌, ◌/◌, ◌%◌, length, min, slice_index};
ghost use Rattle.std.specs.List.{range_with_len};
ghost use Rattle.olap_meaning.specs.Rolled.{value_count};
ghost use Rattle.cache_flush.specs.Formed.{values_of};
ghost use Rattle.segment_index.specs.Keys as keys;

use cache_flush::{allowed_count, size_of};
use olap_catalog::Catalog;
use olap_meaning::{Allowed, Cell, ColumnId, CubeId, Header, MeasureId, ValueId};

/// A header has a key for each of its cells where it has at most this many.
pub(crate) const MOST_CELLS: usize = 16;

// What a key is multiplied by before a number is added: odd, and spread over all bits.
const FACTOR: u64 = 0x5851_f42d_4c95_7f2d;

// What the key of a cell starts from.
const CELL_SEED: u64 = 0x9e37_79b9_7f4a_7c15;

// What the key of columns starts from.
const COLUMNS_SEED: u64 = 0xbf58_476d_1ce4_e5b9;

// A key with a number more.
fn with_number(key: u64, number: u64) -> u64
    ensures { result ≡ keys.with_number key number }
{
    key.wrapping_mul(FACTOR).wrapping_add(number)
}

/// A key with a column and a value more.
pub(crate) fn with_pair(key: u64, column: ColumnId, value: ValueId) -> u64
    ensures { result ≡ keys.with_pair key column value }
{
    with_number(with_number(key, u64::from(column.0)), u64::from(value.0))
}

// A seed with a cube and a measure more.
fn start_key(seed: u64, cube: CubeId, measure: MeasureId) -> u64
    ensures { result ≡ keys.with_pair seed cube measure }
{
    with_number(with_number(seed, u64::from(cube.0)), u64::from(measure.0))
}

/// The key of a cell, with its values. It takes no memory.
pub(crate) fn cell_key(cell: &Cell) -> u64
    ensures { result ≡ keys.cell_key cell.now }
{
    let mut key = start_key(CELL_SEED, cell.cube, cell.measure);
    for pair in cell.at.as_slice() {
        key = with_pair(key, pair.0, pair.1);
    }
    key
}

/// The key of a cell's columns, without its values. It takes no memory.
pub(crate) fn cell_columns_key(cell: &Cell) -> u64
    ensures { result ≡ keys.cell_columns_key cell.now }
{
    let mut key = start_key(COLUMNS_SEED, cell.cube, cell.measure);
    for pair in cell.at.as_slice() {
        key = with_number(key, u64::from(pair.0.0));
    }
    key
}

fn header_columns_key(header: &Header) -> u64
    ensures { result ≡ keys.header_columns_key header.now }
{
    let mut key = start_key(COLUMNS_SEED, header.cube, header.measure);
    for own in header.columns.as_slice() {
        key = with_number(key, u64::from(own.0.0));
    }
    key
}

// The number of cells, or one more than the most where it is greater.
fn capped_count(catalog: &Catalog, columns: &[(ColumnId, Allowed)]) -> usize
    ensures { result
        ≡ min (MOST_CELLS + 1) (keys.cell_count (value_count catalog.now) columns.now) }
{
    let mut count: usize = 1;
    for own in columns {
        count = capped(count, allowed_count(size_of(catalog, own.0), &own.1));
    }
    count
}

// A count that was cut off so, times as many values more.
fn capped(count: usize, more: usize) -> usize
    ensures { result ≡ min (MOST_CELLS + 1) (count * more) }
{
    count.saturating_mul(more).min(MOST_CELLS + 1)
}

/// How many keys a header has: the number of its cells where they are few, else one. It takes no memory.
pub(crate) fn key_count(catalog: &Catalog, header: &Header) -> usize
    ensures { result ≡ keys.key_count (value_count catalog.now) header.now }
{
    let count = capped_count(catalog, header.columns.as_slice());
    if count <= MOST_CELLS { count } else { 1 }
}

fn are_few(catalog: &Catalog, columns: &[(ColumnId, Allowed)]) -> bool
    ensures { result ≡ keys.are_few (value_count catalog.now) columns.now }
{
    capped_count(catalog, columns) <= MOST_CELLS
}

// The value that a number picks, of those that a column of this size allows: the one at its remainder by how many there are.
fn value_at(size: u32, allowed: &Allowed, number: usize) -> ValueId
    ensures { result
        ≡ slice_index (values_of size allowed.now)
        (number % length (values_of size allowed.now)) }
{
    match allowed {
        Allowed::Any => value_below(size, number),
        Allowed::Set(values) => value_among(values.as_slice(), number),
    }
}

// The one of a set.
fn value_among(values: &[ValueId], number: usize) -> ValueId
    ensures { result ≡ slice_index values.now (number % length values.now) }
{
    if values.is_empty() {
        return ValueId(0);
    }
    values[number % values.len()]
}

// The one of all values.
fn value_below(size: u32, number: usize) -> ValueId
    ensures { result
        ≡ slice_index (range_with_len 0 size) (number % length (range_with_len 0 size)) }
{
    if size == 0 {
        return ValueId(0);
    }
    ValueId((number % size as usize) as u32)
}

// What is left of a number for the columns after one that allows this many values.
fn number_left(count: usize, number: usize) -> usize
    ensures { result ≡ number / count }
{
    if count == 0 {
        return 0;
    }
    number / count
}

// The key of the cell of a number, of those with allowed values.
fn picked_key(catalog: &Catalog, start: u64, columns: &[(ColumnId, Allowed)], number: usize) -> u64
    ensures { result ≡ keys.picked_key (value_count catalog.now) start columns.now number }
{
    let mut key = start;
    let mut left = number;
    for own in columns {
        let size = size_of(catalog, own.0);
        key = with_pair(key, own.0, value_at(size, &own.1, left));
        left = number_left(allowed_count(size, &own.1), left);
    }
    key
}

/// The key of a header that has this number, below how many keys it has. It takes no memory.
pub(crate) fn key_at(catalog: &Catalog, header: &Header, number: usize) -> u64
    ensures { result ≡ keys.key_at (value_count catalog.now) header.now number }
{
    if are_few(catalog, header.columns.as_slice()) {
        let start = start_key(CELL_SEED, header.cube, header.measure);
        picked_key(catalog, start, header.columns.as_slice(), number)
    } else {
        header_columns_key(header)
    }
}
