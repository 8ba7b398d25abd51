//! What the text of a flush means in a catalog.
ghost use Rattle.std.specs.Prelude.{◌≡◌, ◌<◌, Ok, Some, true, All, length, IfOk, IfErr};
ghost use Rattle.olap_meaning.specs.Catalog.{find_cube};
ghost use Rattle.olap_meaning.specs.Legal as legal;
ghost use Rattle.query_meaning.specs.RegionMeaning as meaning;
ghost use Rattle.query_meaning.specs.RegionTree as tree;
ghost use Rattle.query_meaning.specs.RegionTree.{trees_of};
ghost use Rattle.region_algebra.specs.Faults.{IsFaultOf, NamesMembers, NamesMembersOf};
ghost use Rattle.region_algebra.specs.Regions.{IsBounded, IsBoundedOf};

use crate::cover::is_flushable;
use crate::crossjoins::crossjoin_in;
use crate::fault::{RegionFault, unknown_cube};
use crate::members::{measures, member};
use crate::names::member_at;
use crate::ranges::range;
use crate::unions::union_in;
use olap_catalog::Catalog;
use olap_meaning::{CubeId, List, Region, Text};
use query_meaning::{Joins, RegionShape, RegionText, RegionTree};
use std::alloc::Global;

/// The region that the text of a flush means in a catalog: its cube; the region from left to right, parts before their
/// whole; then the measures, which have to be among its dimensions. The fault is the first refusal. A tree that was put
/// together by hand may be deeper than that of any text, and each depth takes stack.
pub fn resolve_region(
    alloc: Global,
    catalog: &Catalog,
    text: &RegionText,
) -> Result<Region, RegionFault>
    ensures ok { IfOk result (λ region. meaning.flush_meant catalog.now text.now ≡ Ok region) }
    ensures region { IfOk result IsBounded }
    ensures flushable { IfOk result (λ region. legal.is_flushable catalog.now region ≡ true) }
    ensures fault { IfErr result (λ fault. IsFaultOf fault (meaning.flush_meant catalog.now text.now)) }
    ensures members { IfErr result (NamesMembersOf catalog.now text.now) }
{
    let Some(cube) = catalog.find_cube(text.cube.as_str()) else {
        return Err(unknown_cube(&text.cube));
    };
    flushed_in(alloc, catalog, cube, text)
}

// The region that the text of a flush means in its cube.
fn flushed_in(
    alloc: Global,
    catalog: &Catalog,
    cube: CubeId,
    text: &RegionText,
) -> Result<Region, RegionFault>
    requires known { cube < length catalog.now.cubes }
    requires found { find_cube catalog.now text.now.cube ≡ Some cube }
    ensures ok { IfOk result (λ region. meaning.flush_meant catalog.now text.now ≡ Ok region) }
    ensures region { IfOk result IsBounded }
    ensures flushable { IfOk result (λ region. legal.is_flushable catalog.now region ≡ true) }
    ensures fault { IfErr result (λ fault. IsFaultOf fault (meaning.flush_meant catalog.now text.now)) }
    ensures members { IfErr result (NamesMembersOf catalog.now text.now) }
{
    let region = region_of(alloc, catalog, cube, &text.region)?;
    if !is_flushable(&region) {
        return Err(RegionFault::NoMeasures);
    }
    Ok(region)
}

// What a region means, its parts before their whole.
#[cycle(regions)]
fn region_of(
    alloc: Global,
    catalog: &Catalog,
    cube: CubeId,
    text: &RegionTree,
) -> Result<Region, RegionFault>
    requires { cube < length catalog.now.cubes }
    ensures ok { IfOk result (λ region. meaning.region_meant catalog.now cube text.now ≡ Ok region) }
    ensures own { IfOk result (IsBoundedOf catalog.now cube) }
    ensures fault { IfErr result
        (λ fault. IsFaultOf fault (meaning.region_meant catalog.now cube text.now)) }
    ensures members { IfErr result (NamesMembers catalog.now cube) }
{
    match text.shape() {
        RegionShape::Member(path) => named(alloc, catalog, cube, path.as_slice()),
        RegionShape::Range(first, last) => {
            range_between(alloc, catalog, cube, first.as_slice(), last.as_slice())
        }
        RegionShape::Measures => all_measures(alloc, catalog, cube),
        RegionShape::Parts(joins, parts) => {
            let regions = regions_of(alloc, catalog, cube, parts.as_slice())?;
            joined(alloc, catalog, cube, *joins, regions)
        }
    }
}

// What some regions mean.
#[cycle(regions)]
fn regions_of(
    alloc: Global,
    catalog: &Catalog,
    cube: CubeId,
    trees: &[RegionTree],
) -> Result<List<Region>, RegionFault>
    requires { cube < length catalog.now.cubes }
    ensures ok { IfOk result
        (λ regions. meaning.parts_meant catalog.now cube (trees_of trees.now) ≡ Ok regions) }
    ensures own { IfOk result (All (IsBoundedOf catalog.now cube)) }
    ensures fault { IfErr result (λ fault. IsFaultOf fault
        (meaning.parts_meant catalog.now cube (trees_of trees.now))) }
    ensures members { IfErr result (NamesMembers catalog.now cube) }
{
    let mut regions = List::new(alloc);
    for one in trees {
        let region = region_of(alloc, catalog, cube, one)?;
        regions.push(region)?;
    }
    Ok(regions)
}

// The region of the member of a path.
fn named(
    alloc: Global,
    catalog: &Catalog,
    cube: CubeId,
    path: &[Text],
) -> Result<Region, RegionFault>
    requires { cube < length catalog.now.cubes }
    ensures ok { IfOk result
        (λ region. meaning.region_meant catalog.now cube (tree.Member path.now) ≡ Ok region) }
    ensures own { IfOk result (IsBoundedOf catalog.now cube) }
    ensures fault { IfErr result (λ fault. IsFaultOf fault
        (meaning.region_meant catalog.now cube (tree.Member path.now))) }
    ensures members { IfErr result (NamesMembers catalog.now cube) }
{
    let found = member_at(alloc, catalog, cube, path)?;
    let region = member(alloc, catalog, cube, &found)?;
    Ok(region)
}

// The region from the member of one path to that of another.
fn range_between(
    alloc: Global,
    catalog: &Catalog,
    cube: CubeId,
    first: &[Text],
    last: &[Text],
) -> Result<Region, RegionFault>
    requires { cube < length catalog.now.cubes }
    ensures ok { IfOk result (λ region. meaning.region_meant catalog.now cube
        (tree.Range first.now last.now) ≡ Ok region) }
    ensures own { IfOk result (IsBoundedOf catalog.now cube) }
    ensures fault { IfErr result (λ fault. IsFaultOf fault
        (meaning.region_meant catalog.now cube (tree.Range first.now last.now))) }
    ensures members { IfErr result (NamesMembers catalog.now cube) }
{
    let first = member_at(alloc, catalog, cube, first)?;
    let last = member_at(alloc, catalog, cube, last)?;
    range(alloc, catalog, cube, &first, &last)
}

// The region of the measures.
fn all_measures(alloc: Global, catalog: &Catalog, cube: CubeId) -> Result<Region, RegionFault>
    requires { cube < length catalog.now.cubes }
    ensures ok { IfOk result
        (λ region. meaning.region_meant catalog.now cube tree.Measures ≡ Ok region) }
    ensures own { IfOk result (IsBoundedOf catalog.now cube) }
    ensures fault { IfErr result (λ fault. fault ≡ RegionFault.OutOfMemory) }
{
    let region = measures(alloc, catalog, cube)?;
    Ok(region)
}

// What some regions mean together.
fn joined(
    alloc: Global,
    catalog: &Catalog,
    cube: CubeId,
    joins: Joins,
    parts: List<Region>,
) -> Result<Region, RegionFault>
    requires { All (IsBoundedOf catalog.now cube) parts }
    ensures ok { IfOk result (λ region. meaning.joined_meant joins cube parts ≡ Ok region) }
    ensures own { IfOk result (IsBoundedOf catalog.now cube) }
    ensures fault { IfErr result
        (λ fault. IsFaultOf fault (meaning.joined_meant joins cube parts)) }
    ensures members { IfErr result (NamesMembers catalog.now cube) }
{
    match joins {
        Joins::Crossjoin => crossjoin_in(alloc, cube, parts),
        Joins::Union => union_in(alloc, cube, parts),
    }
}
