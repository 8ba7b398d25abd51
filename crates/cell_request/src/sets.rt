//! What the sets of a query mean.
ghost use Rattle.std.specs.Prelude.{◌≡◌, ◌<◌, Ok, All, length, map, IfOk, IfErr};
ghost use Rattle.cell_request.specs.Faults.{IsFaultOf};
ghost use Rattle.cell_request.specs.Parts.{item_of, part_meant, IsItemOf, IsPartOf};
ghost use Rattle.query_meaning.specs.Resolution as meaning;
ghost use Rattle.query_meaning.specs.Tree.{sets_of};

use crate::braces::joined;
use crate::fault::ResolveFault;
use crate::parts::{ItemPart, Part, crossed, picked, tuple_part};
use olap_catalog::Catalog;
use olap_meaning::{CubeId, List};
use query_meaning::{SetShape, SetText};
use std::alloc::Global;

/// What a set means, its parts before their whole.
#[cycle(sets)]
pub(crate) fn set_part(
    alloc: Global,
    catalog: &Catalog,
    cube: CubeId,
    set: &SetText,
) -> Result<Part, ResolveFault>
    requires { cube < length catalog.now.cubes }
    ensures ok { IfOk result (λ part. meaning.set_meant catalog.now cube set.now
        ≡ Ok (part_meant catalog.now cube part)) }
    ensures own { IfOk result (IsPartOf catalog.now cube) }
    ensures fault { IfErr result
        (λ fault. IsFaultOf fault (meaning.set_meant catalog.now cube set.now)) }
{
    match set.shape() {
        SetShape::Picked(_, path, picks) => picked(alloc, catalog, cube, path.as_slice(), *picks),
        SetShape::Tuple(_, paths) => tuple_part(alloc, catalog, cube, paths.as_slice()),
        SetShape::Cross(_, first, second) => {
            let first = set_part(alloc, catalog, cube, first)?;
            let second = set_part(alloc, catalog, cube, second)?;
            crossed(alloc, catalog, cube, first, second)
        }
        SetShape::Braces(_, sets) => {
            let items = item_parts(alloc, catalog, cube, sets.as_slice())?;
            joined(alloc, catalog, cube, items)
        }
    }
}

// What the items of braces mean.
#[cycle(sets)]
fn item_parts(
    alloc: Global,
    catalog: &Catalog,
    cube: CubeId,
    sets: &[SetText],
) -> Result<List<ItemPart>, ResolveFault>
    requires { cube < length catalog.now.cubes }
    ensures ok { IfOk result
        (λ items. meaning.items_meant catalog.now cube (sets_of sets.now)
        ≡ Ok (map (item_of catalog.now cube) items)) }
    ensures own { IfOk result (λ items. All (IsItemOf catalog.now cube) items) }
    ensures fault { IfErr result (λ fault. IsFaultOf fault
        (meaning.items_meant catalog.now cube (sets_of sets.now))) }
{
    let mut items = List::new(alloc);
    for set in sets {
        let part = set_part(alloc, catalog, cube, set)?;
        let at = begin_of(set);
        items.push(ItemPart { at, part })?;
    }
    Ok(items)
}

// The byte at which a set begins.
fn begin_of(set: &SetText) -> u32
    ensures { result ≡ meaning.begin_of set.now }
{
    match set.shape() {
        SetShape::Braces(at, _) => *at,
        SetShape::Cross(at, _, _) => *at,
        SetShape::Tuple(at, _) => *at,
        SetShape::Picked(at, _, _) => *at,
    }
}
