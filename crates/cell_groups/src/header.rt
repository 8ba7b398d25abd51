//! The header of the load of a group.
ghost use Rattle.std.specs.Prelude.{◌≡◌, ◌<◌, Contains, IfOk, IsTrue, length};
ghost use Rattle.std.specs.List.{list_all};
ghost use Rattle.olap_meaning.specs.Catalog.{values};
ghost use Rattle.olap_meaning.specs.Legal.{is_cell};
ghost use Rattle.segment_header.specs.Widening.{Serves, Widened};
ghost use Rattle.history_core.specs.Groups as groups;
ghost use Rattle.history_core.specs.Groups.{IsHeaderFor};
ghost use Rattle.cell_groups.specs.Gathered as gathered;
ghost use Rattle.cell_groups.specs.Lent.{lent};

use crate::groups::Group;
use crate::values::{column_at, make_rising, read_values};
use olap_catalog::Catalog;
use olap_meaning::{Allowed, Header, List, OutOfMemory, ValueId};
use segment_header::{AllowsValues, Widener};
use std::alloc::Global;

// What the widener allows in the column at a place of a group. The values are put in place of others.
fn allowed_at(
    catalog: &Catalog,
    group: &Group<'_>,
    widener: &Widener,
    place: usize,
    found: &mut Vec<ValueId>,
) -> Result<Allowed, OutOfMemory>
    requires known { IsTrue (list_all (is_cell catalog.now) (lent group.now.cells.items)) }
    requires alike { IsTrue
        (list_all (groups.alike group.now.first.now) (lent group.now.cells.items)) }
    requires among { Contains (lent group.now.cells.items) group.now.first.now }
    requires place { place < length group.now.first.now.at }
    ensures allowed { let column = gathered.column_at place group.now.first.now in
        IfOk result (λ allowed. Widened (⟦<Widener as AllowsValues>⟧.answers widener.now)
        (groups.values_on catalog.now (lent group.now.cells.items) column)
        (length (values catalog.now column)) allowed) }
    ensures serves { let column = gathered.column_at place group.now.first.now in
        IfOk result
        (Serves (groups.values_on catalog.now (lent group.now.cells.items) column)
        (length (values catalog.now column))) }
{
    read_values(found, group.cells.as_slice(), place)?;
    make_rising(found);
    let count = catalog.value_count(column_at(group.first, place));
    widener.allow(found.as_slice(), count)
}

/// The header of the load of a group: it has its cells' columns, and allows in each what the widener allows for the values
/// that the cells have there. The widener is asked once for each column.
pub fn header_for(
    alloc: Global,
    catalog: &Catalog,
    group: &Group<'_>,
    widener: &Widener,
) -> Result<Header, OutOfMemory>
    requires known { IsTrue (list_all (is_cell catalog.now) (lent group.now.cells.items)) }
    requires alike { IsTrue
        (list_all (groups.alike group.now.first.now) (lent group.now.cells.items)) }
    requires among { Contains (lent group.now.cells.items) group.now.first.now }
    ensures { IfOk result
        (IsHeaderFor (Widened (⟦<Widener as AllowsValues>⟧.answers widener.now))
        catalog.now group.now.first.now (lent group.now.cells.items)) }
{
    let mut found = Vec::with_capacity(alloc, group.cells.len())?;
    let mut columns = Vec::with_capacity(alloc, group.first.at.len())?;
    for place in 0..group.first.at.len() {
        let allowed = allowed_at(catalog, group, widener, place, &mut found)?;
        columns.push((column_at(group.first, place), allowed))?;
    }
    Ok(Header {
        cube: group.first.cube,
        measure: group.first.measure,
        columns: List::from_vec(columns),
    })
}
