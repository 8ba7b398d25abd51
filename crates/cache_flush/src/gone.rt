//! Whether flushed regions shut off a header as a whole, as far as a short test tells. Nothing here takes memory.
ghost use Rattle.std.specs.Prelude.{◌≡◌, ◌==◌, ◌||◌, Some};
ghost use Rattle.std.specs.List.{list_all, list_any, range_with_len};
ghost use Rattle.olap_meaning.specs.Covering as covering;
ghost use Rattle.olap_meaning.specs.Rolled.{value_count};
ghost use Rattle.cache_flush.specs.Formed.{values_of};
ghost use Rattle.cache_flush.specs.Gone as gone;
ghost use Rattle.cache_flush.specs.Records.{passes_at};

use crate::formed::{allowed_count, size_of};
use crate::ledger::Ledger;
use crate::record::Record;
use crate::touch::have;
use olap_catalog::Catalog;
use olap_meaning::{Allowed, ColumnId, Header, List, Region, RegionBox, ValueId};
use region_algebra::is_of_measure;

/// A column with more allowed values than these is not looked along.
pub(crate) const FEW_VALUES: usize = 64;

/// Whether a region spans a header, which may be narrowed to one value along one column: it has all cells that the header covers
/// and that have this value.
pub(crate) fn spans(
    catalog: &Catalog,
    region: &Region,
    header: &Header,
    along: &Option<(ColumnId, ValueId)>,
) -> bool
    ensures { result
        ≡ gone.region_spans (value_count catalog.now) along.now header.now region.now }
{
    region.cube == header.cube && some_box_spans(catalog, region.boxes.as_slice(), header, along)
}

// One of some boxes spans a header.
fn some_box_spans(
    catalog: &Catalog,
    boxes: &[RegionBox],
    header: &Header,
    along: &Option<(ColumnId, ValueId)>,
) -> bool
    ensures { result
        ≡ list_any (gone.box_spans (value_count catalog.now) along.now header.now) boxes.now }
{
    boxes
        .iter()
        .any(|one| box_spans(catalog, one, header, along))
}

// A box spans a header.
fn box_spans(
    catalog: &Catalog,
    region_box: &RegionBox,
    header: &Header,
    along: &Option<(ColumnId, ValueId)>,
) -> bool
    ensures { result
        ≡ gone.box_spans (value_count catalog.now) along.now header.now region_box.now }
{
    let columns = region_box.columns.as_slice();
    is_of_measure(&region_box.measures, header.measure)
        && hold_along(columns, along)
        && span_others(catalog, columns, header.columns.as_slice(), along)
}

// The columns of a box have the value to which a header is narrowed, if it is.
fn hold_along(columns: &[(ColumnId, List<ValueId>)], along: &Option<(ColumnId, ValueId)>) -> bool
    ensures { result ≡ gone.holds_along along.now columns.now }
{
    match along {
        None => true,
        Some((own, value)) => hold(columns, *own, *value),
    }
}

// The columns of a box have a value in a column, where they name it.
fn hold(columns: &[(ColumnId, List<ValueId>)], own: ColumnId, value: ValueId) -> bool
    ensures { result ≡ gone.column_holds columns.now own value }
{
    columns.iter().all(|column| column.0 != own || have(column.1.as_slice(), value))
}

// The columns of a box have all that a header's columns allow, except the one that is narrowed.
fn span_others(
    catalog: &Catalog,
    columns: &[(ColumnId, List<ValueId>)],
    own: &[(ColumnId, Allowed)],
    along: &Option<(ColumnId, ValueId)>,
) -> bool
    ensures { result
        ≡ list_all
        (λ own. gone.is_along along.now own.0
        || gone.column_spans (value_count catalog.now own.0) columns.now own.0 own.1)
        own.now }
{
    own.iter().all(|one| {
        is_along(along, one.0) || span(size_of(catalog, one.0), columns, one.0, &one.1)
    })
}

// A column is the one that is narrowed.
fn is_along(along: &Option<(ColumnId, ValueId)>, own: ColumnId) -> bool
    ensures { result ≡ gone.is_along along.now own }
{
    match along {
        None => false,
        Some((column, _)) => *column == own,
    }
}

// The columns of a box have all that a column of this size allows, where they name it.
fn span(size: u32, columns: &[(ColumnId, List<ValueId>)], own: ColumnId, allowed: &Allowed) -> bool
    ensures { result ≡ gone.column_spans size columns.now own allowed.now }
{
    columns.iter().all(|column| column.0 != own || has_all(size, column.1.as_slice(), allowed))
}

// Values have all that a column of this size allows.
fn has_all(size: u32, values: &[ValueId], allowed: &Allowed) -> bool
    ensures { result ≡ gone.has_all size values.now allowed.now }
{
    match allowed {
        Allowed::Any => u64::from(size) <= reached(values),
        Allowed::Set(wanted) => have_all(values, wanted.as_slice()),
    }
}

// How many of the first numbers stand among values in their order. It is all values of a column in one pass, since those of a
// region rise.
fn reached(values: &[ValueId]) -> u64
    ensures { result ≡ gone.reached values.now }
{
    let mut next: u64 = 0;
    for value in values {
        if u64::from(value.0) == next {
            next += 1;
        }
    }
    next
}

// Some values are among others. More different ones can not be among fewer.
fn have_all(values: &[ValueId], wanted: &[ValueId]) -> bool
    ensures { result ≡ gone.have_all values.now wanted.now }
{
    wanted.len() <= values.len() && are_among(wanted, values)
}

// Each of some values is one of others.
fn are_among(wanted: &[ValueId], values: &[ValueId]) -> bool
    ensures { result ≡ list_all (covering.among values.now) wanted.now }
{
    wanted.iter().all(|value| have(values, *value))
}

/// Whether along some column of a header a region and the records that were flushed last span it.
pub(crate) fn span_along(
    catalog: &Catalog,
    ledger: &Ledger,
    place: u64,
    header: &Header,
    region: &Region,
) -> bool
    ensures { result
        ≡ list_any
        (λ own. gone.spans_along (value_count catalog.now) ledger.now place header.now region.now
        own.0 own.1) header.now.columns }
{
    header.columns.as_slice().iter().any(|own| span_column(
        catalog, ledger, place, header, region, own.0, &own.1,
    ))
}

// One of some boxes names a column.
fn names(boxes: &[RegionBox], own: ColumnId) -> bool
    ensures { result ≡ list_any (λ box. list_any (λ column. column.0 == own) box.columns) boxes.now }
{
    boxes.iter().any(|one| name(one.columns.as_slice(), own))
}

// The columns of a box name a column.
fn name(columns: &[(ColumnId, List<ValueId>)], own: ColumnId) -> bool
    ensures { result ≡ list_any (λ column. column.0 == own) columns.now }
{
    columns.iter().any(|column| column.0 == own)
}

// Along a column that the region names, with few allowed values, a region and the records that were flushed last span a header,
// the region for one of the values at least. Along any other column a region spans a header narrowed just where it spans it
// whole.
fn span_column(
    catalog: &Catalog,
    ledger: &Ledger,
    place: u64,
    header: &Header,
    region: &Region,
    own: ColumnId,
    allowed: &Allowed,
) -> bool
    ensures { result
        ≡ gone.spans_along (value_count catalog.now) ledger.now place header.now region.now own
        allowed.now }
{
    let size = size_of(catalog, own);
    names(region.boxes.as_slice(), own)
        && allowed_count(size, allowed) <= FEW_VALUES
        && span_some(catalog, region, header, own, size, allowed)
        && span_each(catalog, ledger, place, header, region, own, size, allowed)
}

// A region spans a header that is narrowed to one of the values that a column of this size allows.
fn span_some(
    catalog: &Catalog,
    region: &Region,
    header: &Header,
    own: ColumnId,
    size: u32,
    allowed: &Allowed,
) -> bool
    ensures { result
        ≡ list_any
        (λ value. gone.region_spans (value_count catalog.now) (Some (own, value)) header.now
        region.now) (values_of size allowed.now) }
{
    match allowed {
        Allowed::Any => span_some_below(catalog, region, header, own, size),
        Allowed::Set(values) => values
            .as_slice()
            .iter()
            .any(|value| spans_one(catalog, region, header, own, *value)),
    }
}

// The same, of the values below a number.
fn span_some_below(
    catalog: &Catalog,
    region: &Region,
    header: &Header,
    own: ColumnId,
    size: u32,
) -> bool
    ensures { result
        ≡ list_any
        (λ value. gone.region_spans (value_count catalog.now) (Some (own, value)) header.now
        region.now) (range_with_len 0 size) }
{
    (0..size).any(|value| spans_one(catalog, region, header, own, ValueId(value)))
}

// A region spans a header that is narrowed to one value.
fn spans_one(
    catalog: &Catalog,
    region: &Region,
    header: &Header,
    own: ColumnId,
    value: ValueId,
) -> bool
    ensures { result
        ≡ gone.region_spans (value_count catalog.now) (Some (own, value)) header.now region.now }
{
    spans(catalog, region, header, &Some((own, value)))
}

// For each of the values that a column of this size allows a region or one of the records that were flushed last spans a header that
// is narrowed to it.
fn span_each(
    catalog: &Catalog,
    ledger: &Ledger,
    place: u64,
    header: &Header,
    region: &Region,
    own: ColumnId,
    size: u32,
    allowed: &Allowed,
) -> bool
    ensures { result
        ≡ list_all
        (λ value. gone.region_spans (value_count catalog.now) (Some (own, value)) header.now
        region.now
        || gone.records_span (value_count catalog.now) ledger.now place (Some (own, value))
        header.now) (values_of size allowed.now) }
{
    match allowed {
        Allowed::Any => span_each_below(catalog, ledger, place, header, region, own, size),
        Allowed::Set(values) => values.as_slice().iter().all(|value| span_value(
            catalog, ledger, place, header, region, own, *value,
        )),
    }
}

// The same, of the values below a number.
fn span_each_below(
    catalog: &Catalog,
    ledger: &Ledger,
    place: u64,
    header: &Header,
    region: &Region,
    own: ColumnId,
    size: u32,
) -> bool
    ensures { result
        ≡ list_all
        (λ value. gone.region_spans (value_count catalog.now) (Some (own, value)) header.now
        region.now
        || gone.records_span (value_count catalog.now) ledger.now place (Some (own, value))
        header.now) (range_with_len 0 size) }
{
    (0..size).all(|value| {
        span_value(catalog, ledger, place, header, region, own, ValueId(value))
    })
}

// A region or one of the records that were flushed last spans a header that is narrowed to one value.
fn span_value(
    catalog: &Catalog,
    ledger: &Ledger,
    place: u64,
    header: &Header,
    region: &Region,
    own: ColumnId,
    value: ValueId,
) -> bool
    ensures { result
        ≡ (gone.region_spans (value_count catalog.now) (Some (own, value)) header.now region.now
        || gone.records_span (value_count catalog.now) ledger.now place (Some (own, value))
        header.now) }
{
    let along = &Some((own, value));
    spans(catalog, region, header, along) || some_span(catalog, ledger, place, header, along)
}

// One of the records that were flushed last has a flush after a place, and its region spans a header.
fn some_span(
    catalog: &Catalog,
    ledger: &Ledger,
    place: u64,
    header: &Header,
    along: &Option<(ColumnId, ValueId)>,
) -> bool
    ensures { result
        ≡ gone.records_span (value_count catalog.now) ledger.now place along.now header.now }
{
    let records = ledger.as_slice();
    ledger.recent().iter().any(|position| spans_at(
        catalog, records, *position, place, header, along,
    ))
}

// The record at a position has a flush after a place, and its region spans a header.
fn spans_at(
    catalog: &Catalog,
    records: &[Record],
    position: usize,
    place: u64,
    header: &Header,
    along: &Option<(ColumnId, ValueId)>,
) -> bool
    ensures { result
        ≡ passes_at (gone.spans_after (value_count catalog.now) place along.now header.now)
        records.now position }
{
    match records.get(position) {
        Some(record) => record.is_after(place) && record.spans(catalog, header, along),
        None => false,
    }
}
