//! Cells that may share a load, found by hash.
ghost use Rattle.std.specs.Prelude.{◌≡◌, ◌≤◌, ◌∷◌, [], All, IfOk, IsTrue, OnOk, filter, length, map};
ghost use Rattle.std.specs.List.{list_all};
ghost use Rattle.olap_meaning.specs.Legal.{is_cell};
ghost use Rattle.history_core.specs.Groups as groups;
ghost use Rattle.cell_groups.specs.Gathered.{seen, with_cell};
ghost use Rattle.cell_groups.specs.Lent.{lent};

use crate::key::key_of;
use indexmap::IndexSet;
use olap_catalog::Catalog;
use olap_meaning::{Cell, OutOfMemory};
use std::alloc::Global;

/// Cells that may share a load: one cube, one measure, the same columns. There is one at least.
#[derive(Drop)]
pub struct Group<'a> {
    pub first: &'a Cell,
    pub cells: Vec<&'a Cell>,
}

// A group of one cell.
fn group_of<'a>(alloc: Global, cell: &'a Cell) -> Result<Group<'a>, OutOfMemory>
    ensures first { IfOk result (λ group. group.first.now ≡ cell.entry.now) }
    ensures cells { IfOk result (λ group. lent group.cells.items ≡ cell.entry.now ∷ []) }
{
    let mut cells = Vec::new(alloc);
    cells.push(cell)?;
    Ok(Group { first: cell, cells })
}

// Puts a cell into the group at a place. Past the last one it begins a group.
fn put<'a>(
    alloc: Global,
    groups: &mut Vec<Group<'a>>,
    place: usize,
    cell: &'a Cell,
) -> Result<(), OutOfMemory>
    requires { place ≤ length groups.old.items }
    ensures { OnOk result
        (map seen groups.new.items ≡ with_cell place cell.entry.now (map seen groups.old.items)) }
{
    if place < groups.len() {
        groups[place].cells.push(cell)?;
        return Ok(());
    }
    groups.push(group_of(alloc, cell)?)?;
    Ok(())
}

/// The groups of cells that may share a load, in the order of their first cells. The group of a cell is found by hash: no
/// cell is compared with another.
pub fn group_cells<'a>(
    alloc: Global,
    catalog: &Catalog,
    cells: &[&'a Cell],
) -> Result<Vec<Group<'a>>, OutOfMemory>
    requires known { IsTrue (list_all (is_cell catalog.now) (lent cells.now)) }
    ensures firsts { IfOk result
        (λ made. map (λ group. group.first.now) made.items
        ≡ groups.firsts [] (lent cells.now)) }
    ensures cells { IfOk result
        (λ made. All
        (λ group. lent group.cells.items
        ≡ filter (groups.alike group.first.now) (lent cells.now)) made.items) }
{
    let _ = catalog.column_count();
    let mut keys = IndexSet::new(alloc);
    let mut groups = Vec::new(alloc);
    for cell in cells {
        let (place, _) = keys.insert_full(key_of(cell))?;
        put(alloc, &mut groups, place, cell)?;
    }
    Ok(groups)
}
