//! Whether a region touches a header. Nothing here takes memory.
ghost use Rattle.std.specs.Prelude.{◌≡◌, ◌==◌, ◌||◌, not};
ghost use Rattle.std.specs.List.{list_all, list_any};
ghost use Rattle.olap_meaning.specs.Covering as covering;

use olap_meaning::{Allowed, ColumnId, Header, List, Region, RegionBox, ValueId};
use region_algebra::is_of_measure;

/// Whether a region touches a header: the cube is the header's, and one of its boxes is of the header's measure and has,
/// in each column that both name, a value that the header allows. It takes no memory.
pub fn touches(region: &Region, header: &Header) -> bool
    ensures { result ≡ covering.region_touches region.now header.now }
{
    region.cube == header.cube && some_box_touches(region.boxes.as_slice(), header)
}

// One of some boxes touches a header.
fn some_box_touches(boxes: &[RegionBox], header: &Header) -> bool
    ensures { result ≡ list_any (λ box. covering.box_touches box header.now) boxes.now }
{
    boxes.iter().any(|one| box_touches(one, header))
}

// A box touches a header.
fn box_touches(region_box: &RegionBox, header: &Header) -> bool
    ensures { result ≡ covering.box_touches region_box.now header.now }
{
    is_of_measure(&region_box.measures, header.measure)
        && meet_all(region_box.columns.as_slice(), header.columns.as_slice())
}

// The columns of a box meet each column of a header that they name.
fn meet_all(columns: &[(ColumnId, List<ValueId>)], own: &[(ColumnId, Allowed)]) -> bool
    ensures { result
        ≡ list_all
        (λ own. list_all
        (λ column. not (column.0 == own.0) || list_any (covering.allows own.1) column.1)
        columns.now) own.now }
{
    own.iter().all(|one| meet(columns, one.0, &one.1))
}

// The columns of a box have a value that a column allows, where they name it.
fn meet(columns: &[(ColumnId, List<ValueId>)], own: ColumnId, allowed: &Allowed) -> bool
    ensures { result
        ≡ list_all
        (λ column. not (column.0 == own) || list_any (covering.allows allowed.now) column.1)
        columns.now }
{
    columns.iter().all(|column| column.0 != own || has_allowed(column.1.as_slice(), allowed))
}

// One of some values is allowed.
fn has_allowed(values: &[ValueId], allowed: &Allowed) -> bool
    ensures { result ≡ list_any (covering.allows allowed.now) values.now }
{
    values.iter().any(|value| is_allowed(allowed, *value))
}

/// A value is allowed, whether or not the allowed values rise.
pub(crate) fn is_allowed(allowed: &Allowed, value: ValueId) -> bool
    ensures { result ≡ covering.allows allowed.now value }
{
    match allowed {
        Allowed::Any => true,
        Allowed::Set(values) => have(values.as_slice(), value),
    }
}

// A value is among some.
pub(crate) fn have(values: &[ValueId], value: ValueId) -> bool
    ensures { result ≡ covering.among values.now value }
{
    values.iter().any(|one| *one == value)
}
