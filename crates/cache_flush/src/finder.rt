//! How the record of a region is found: by a key of the region. Nothing here takes memory.
ghost use Rattle.std.specs.Prelude.{◌≡◌, IfSome, IsTrue, Some};
ghost use Rattle.cache_flush.specs.Records.{region_at};

use crate::places::Places;
use crate::record::Record;
use olap_meaning::{ColumnId, List, Region, RegionBox, ValueId};

// What a key is multiplied by before a number is added: odd, and spread over all bits.
const FACTOR: u64 = 0x5851_f42d_4c95_7f2d;

// What a key starts from.
const SEED: u64 = 0x9e37_79b9_7f4a_7c15;

// A key with a number more.
fn with_number(key: u64, number: u64) -> u64 {
    key.wrapping_mul(FACTOR).wrapping_add(number)
}

/// The key of a region. Keys of different regions may be equal by chance, so what is found by a key is still to be compared
/// with the region.
pub(crate) fn region_key(region: &Region) -> u64 {
    let mut key = with_number(SEED, u64::from(region.cube.0));
    for one in region.boxes.as_slice() {
        key = with_box(key, one);
    }
    key
}

// A key with a box more.
fn with_box(key: u64, region_box: &RegionBox) -> u64 {
    let mut with = with_measures(key, region_box);
    for column in region_box.columns.as_slice() {
        with = with_column(with, column.0, &column.1);
    }
    with
}

// A key with the measures of a box more.
fn with_measures(key: u64, region_box: &RegionBox) -> u64 {
    let Some(measures) = &region_box.measures else {
        return with_number(key, 0);
    };
    let mut with = with_number(key, 1);
    for measure in measures.as_slice() {
        with = with_number(with, u64::from(measure.0));
    }
    with
}

// A key with a column and its values more.
fn with_column(key: u64, column: ColumnId, values: &List<ValueId>) -> u64 {
    let mut with = with_number(with_number(key, u64::from(column.0)), values.len() as u64);
    for value in values.as_slice() {
        with = with_number(with, u64::from(value.0));
    }
    with
}

/// The place of the record of a region, among the places under its key.
pub(crate) fn place_of(
    finder: &Places,
    records: &[Record],
    key: u64,
    region: &Region,
) -> Option<usize>
    ensures { IfSome result (λ place. region_at records.now place ≡ Some region.now) }
{
    let places = finder.at(key);
    for i in 0..places.len() {
        if is_at(records, places[i], region) {
            return Some(places[i]);
        }
    }
    None
}

// The record at a place is that of a region.
fn is_at(records: &[Record], place: usize, region: &Region) -> bool
    ensures { IsTrue result → region_at records.now place ≡ Some region.now }
{
    match records.get(place) {
        Some(record) => record.is_of(region),
        None => false,
    }
}
