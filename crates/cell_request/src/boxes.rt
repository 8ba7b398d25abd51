//! The boxes of the members on which the hierarchies of a cube stand in a cell.
ghost use Rattle.std.specs.Prelude.{◌≡◌, ◌++◌, flat_map, option_copied, IfOk, OnOk};
ghost use Rattle.std.specs.Option.{option_map_or};
ghost use Rattle.olap_meaning.specs.Catalog.{box};
ghost use Rattle.cell_request.specs.Standing.{box_among};

use crate::defaults::DefaultBox;
use crate::members::member_of_root;
use olap_catalog::Catalog;
use olap_meaning::{ColumnId, LevelRef, List, Member, OutOfMemory, ValueId};
use std::alloc::Global;

/// The columns and values of a cell: the boxes of the first members of its column, its row and the slicer that are of
/// the kept hierarchies, and the kept box of a hierarchy that has none there.
pub(crate) fn boxes_among(
    alloc: Global,
    catalog: &Catalog,
    defaults: &[DefaultBox],
    column: &[Member],
    row: &[Member],
    slicer: &[Member],
) -> Result<List<(ColumnId, ValueId)>, OutOfMemory>
    ensures { IfOk result
        (λ at. at
        ≡ flat_map (box_among catalog.now (column.now ++ row.now ++ slicer.now)) defaults.now) }
{
    let mut at = List::new(alloc);
    for kept in defaults {
        let root = LevelRef::Whole(kept.hierarchy);
        let member = member_of_root(column, row, slicer, &root);
        add_box(&mut at, alloc, catalog, member, kept)?;
    }
    Ok(at)
}

// Adds the box of a member, or the kept one where there is no member.
fn add_box(
    at: &mut List<(ColumnId, ValueId)>,
    alloc: Global,
    catalog: &Catalog,
    member: Option<&Member>,
    kept: &DefaultBox,
) -> Result<(), OutOfMemory>
    ensures { OnOk result
        (at.new
        ≡ at.old ++ option_map_or (box catalog.now) (option_copied member.entry) kept.now.pairs) }
{
    let Some(member) = member else {
        return add(at, kept.pairs.as_slice());
    };
    let pairs = catalog.cell_box(alloc, member)?;
    add(at, pairs.as_slice())
}

// Adds some pairs.
fn add(at: &mut List<(ColumnId, ValueId)>, pairs: &[(ColumnId, ValueId)]) -> Result<(), OutOfMemory>
    ensures { OnOk result (at.new ≡ at.old ++ pairs.now) }
{
    for pair in pairs {
        at.push(*pair)?;
    }
    Ok(())
}
