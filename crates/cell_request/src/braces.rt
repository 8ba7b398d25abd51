//! What braces mean.
ghost use Rattle.std.specs.Prelude.{◌≡◌, [], Ok, All, find, map, min, not, option_copied, option_map, sum, IfOk, IfErr};
ghost use Rattle.std.specs.Option.{option_map_or};
ghost use Rattle.cell_request.specs.Faults.{IsFaultOf};
ghost use Rattle.cell_request.specs.Parts.{is_other, item_of, part_meant, IsItemOf, IsPartOf};
ghost use Rattle.query_meaning.specs.Resolution.{most_told};
ghost use Rattle.query_meaning.specs.Resolution as meaning;

use crate::fault::ResolveFault;
use crate::parts::{ItemPart, Part};
use crate::plan::Plan;
use crate::roots::{add_roots, are_roots};
use olap_catalog::Catalog;
use olap_meaning::{CubeId, LevelRef, List, OutOfMemory};
use std::alloc::Global;

/// The tuples of some items in order, where those that are not open are of the same hierarchies.
pub(crate) fn joined(
    alloc: Global,
    catalog: &Catalog,
    cube: CubeId,
    items: List<ItemPart>,
) -> Result<Part, ResolveFault>
    requires { All (IsItemOf catalog.now cube) items }
    ensures ok { IfOk result (λ part. meaning.joined (map (item_of catalog.now cube) items)
        ≡ Ok (part_meant catalog.now cube part)) }
    ensures own { IfOk result (IsPartOf catalog.now cube) }
    ensures fault { IfErr result
        (λ fault. IsFaultOf fault (meaning.joined (map (item_of catalog.now cube) items))) }
{
    let leading = leading(items.as_slice());
    let is_open = leading.is_none();
    let roots = roots_of(alloc, leading)?;
    if let Some(at) = first_mixed(roots.as_slice(), items.as_slice()) {
        return Err(ResolveFault::MixedSet { at });
    }
    let count = count_of(items.as_slice());
    let plans = plans_of(alloc, items)?;
    Ok(Part {
        roots,
        is_open,
        count,
        plan: Plan::Joined(plans.into_vec()),
    })
}

// The first item that is not open.
fn leading(items: &[ItemPart]) -> Option<&ItemPart>
    ensures { option_copied result ≡ find (λ item. not item.part.is_open) items.now }
{
    items.iter().find(|item| !item.part.is_open)
}

// The roots of an item, none where there is no item.
fn roots_of(alloc: Global, item: Option<&ItemPart>) -> Result<List<LevelRef>, OutOfMemory>
    ensures { IfOk result
        (λ roots. roots ≡ option_map_or (λ item. item.part.roots) (option_copied item.entry) []) }
{
    let mut roots = List::new(alloc);
    if let Some(item) = item {
        add_roots(&mut roots, item.part.roots.as_slice())?;
    }
    Ok(roots)
}

// The byte at which the first item begins that is not open and of other roots.
fn first_mixed(roots: &[LevelRef], items: &[ItemPart]) -> Option<u32>
    ensures { result ≡ option_map (λ item. item.at) (find (is_other roots.now) items.now) }
{
    match items.iter().find(|item| is_other(roots, item)) {
        None => None,
        Some(item) => Some(item.at),
    }
}

// An item is not open, and is of other roots.
fn is_other(roots: &[LevelRef], item: &ItemPart) -> bool
    ensures { result ≡ is_other roots.now item.now }
{
    !item.part.is_open && !are_roots(item.part.roots.as_slice(), roots)
}

// The lesser of the number of the items' tuples and 2^64 - 1.
fn count_of(items: &[ItemPart]) -> u64
    ensures { result ≡ min (sum (map (λ item. item.part.count) items.now)) most_told }
{
    let mut count: u64 = 0;
    for item in items {
        count = count.saturating_add(item.part.count);
    }
    count
}

// What lists the tuples of each item.
fn plans_of(alloc: Global, items: List<ItemPart>) -> Result<List<Plan>, OutOfMemory>
    ensures { IfOk result (λ plans. plans ≡ map (λ item. item.part.plan) items) }
{
    let mut plans = List::new(alloc);
    for item in items.into_vec() {
        let part = item.part;
        plans.push(part.plan)?;
    }
    Ok(plans)
}
