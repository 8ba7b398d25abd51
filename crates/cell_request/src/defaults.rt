//! The boxes of the default members of a cube's hierarchies.
ghost use Rattle.std.specs.Prelude.{ℕ, ◌≡◌, ◌<◌, ◌++◌, false, All, length, slice_get, IfOk, OnOk};
ghost use Rattle.std.specs.Option.{option_map_or};
ghost use Rattle.olap_meaning.specs.Covering.{among};
ghost use Rattle.cell_request.specs.Defaults as meaning;
ghost use Rattle.cell_request.specs.Boxes.{is_within, HasOwnBox};

use olap_catalog::Catalog;
use olap_meaning::{ColumnId, CubeId, HierarchyId, List, OutOfMemory, ValueId};
use std::alloc::Global;

/// A hierarchy and the box of its default member, which is empty where the hierarchy has no member.
#[derive(Drop)]
pub(crate) struct DefaultBox {
    pub(crate) hierarchy: HierarchyId,
    pub(crate) pairs: List<(ColumnId, ValueId)>,
}

/// The boxes of the default members of the hierarchies of a cube's dimensions, in the schema's order.
pub(crate) fn default_boxes(
    alloc: Global,
    catalog: &Catalog,
    cube: CubeId,
) -> Result<List<DefaultBox>, OutOfMemory>
    requires { cube < length catalog.now.cubes }
    ensures all { IfOk result (λ kept. kept ≡ meaning.default_boxes catalog.now cube) }
    ensures own { IfOk result (All (HasOwnBox catalog.now)) }
{
    let mut kept = List::new(alloc);
    for h in 0..catalog.hierarchy_count() {
        add_default(&mut kept, alloc, catalog, cube, HierarchyId(h as u16))?;
    }
    Ok(kept)
}

// Adds the box of the default member of a hierarchy, where it is of a dimension of the cube.
fn add_default(
    kept: &mut List<DefaultBox>,
    alloc: Global,
    catalog: &Catalog,
    cube: CubeId,
    h: HierarchyId,
) -> Result<(), OutOfMemory>
    requires cube { cube < length catalog.now.cubes }
    requires hierarchy { h < length catalog.now.hierarchies }
    ensures added { OnOk result
        (kept.new ≡ kept.old ++ meaning.default_boxes_at catalog.now cube h) }
    ensures own { OnOk result
        (All (HasOwnBox catalog.now) (meaning.default_boxes_at catalog.now cube h)) }
{
    if !has_hierarchy(catalog, cube, h) {
        return Ok(());
    }
    let default = default_box(alloc, catalog, h)?;
    kept.push(default)?;
    Ok(())
}

// Whether a hierarchy is of a dimension of a cube.
fn has_hierarchy(catalog: &Catalog, cube: CubeId, h: HierarchyId) -> bool
    requires cube { cube < length catalog.now.cubes }
    requires hierarchy { h < length catalog.now.hierarchies }
    ensures { result ≡ option_map_or (is_within catalog.now cube)
        (slice_get catalog.now.hierarchies h) false }
{
    let dimension = catalog.hierarchy(h).dimension;
    is_among(catalog.cube(cube).dimensions.as_slice(), dimension)
}

// Whether a dimension is one of some.
fn is_among(dimensions: &[u32], dimension: u32) -> bool
    ensures { result ≡ among dimensions.now dimension }
{
    dimensions.iter().any(|d| *d == dimension)
}

// The box of the default member of a hierarchy.
fn default_box(alloc: Global, catalog: &Catalog, h: HierarchyId) -> Result<DefaultBox, OutOfMemory>
    requires { h < length catalog.now.hierarchies }
    ensures is { IfOk result (λ kept. (cube : ℕ) → kept ≡ meaning.default_box catalog.now cube h) }
    ensures own { IfOk result (HasOwnBox catalog.now) }
{
    let found = catalog.default_member(alloc, h)?;
    let Some(member) = found else {
        return Ok(DefaultBox {
            hierarchy: h,
            pairs: List::new(alloc),
        });
    };
    let pairs = catalog.cell_box(alloc, &member)?;
    Ok(DefaultBox {
        hierarchy: h,
        pairs,
    })
}
