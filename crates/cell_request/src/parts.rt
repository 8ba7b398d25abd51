//! What parts of a query mean.
ghost use Rattle.std.specs.Prelude.{ℕ, ◌≡◌, ◌<◌, ◌++◌, All, None, Ok, length, min, IfOk, IfErr, OnOk};
ghost use Rattle.cell_request.specs.Faults.{IsFaultOf, IsReason};
ghost use Rattle.cell_request.specs.Parts.{crossing, part_meant, IsPartOf};
ghost use Rattle.cell_request.specs.Plans.{listed, pairs_of, IsPlanOf};
ghost use Rattle.olap_meaning.specs.declared.tables.Catalog.{Catalog};
ghost use Rattle.olap_meaning.specs.Catalog.{level_members};
ghost use Rattle.olap_meaning.specs.MemberOf.{IsLevelIn};
ghost use Rattle.query_meaning.specs.Resolution.{most_told};
ghost use Rattle.query_meaning.specs.Resolution as meaning;
ghost use Rattle.query_meaning.specs.Tree as tree;
ghost use Rattle.query_meaning.specs.declared.set_text.Picks.TheVariants as picks;

use crate::fault::ResolveFault;
use crate::names::{level_at, member_at, tuple_at};
use crate::plan::Plan;
use crate::roots::{add_roots, level_root, one_root, refuse_twice, root_of, roots_of};
use olap_catalog::Catalog;
use olap_meaning::{CubeId, LevelRef, List, Member, OutOfMemory, Text};
use query_meaning::Picks;
use std::alloc::Global;

/// What a set means: the roots of its tuples, whether it is open, the lesser of the number of its tuples and 2^64 - 1,
/// and what lists them.
#[derive(Drop)]
pub(crate) struct Part {
    pub(crate) roots: List<LevelRef>,
    pub(crate) is_open: bool,
    pub(crate) count: u64,
    pub(crate) plan: Plan,
}

/// An item in braces: the byte at which it begins, and what it means.
#[derive(Drop)]
pub(crate) struct ItemPart {
    pub(crate) at: u32,
    pub(crate) part: Part,
}

/// What a path picks.
pub(crate) fn picked(
    alloc: Global,
    catalog: &Catalog,
    cube: CubeId,
    path: &[Text],
    picks: Picks,
) -> Result<Part, ResolveFault>
    requires { cube < length catalog.now.cubes }
    ensures ok { IfOk result (λ part. (at : ℕ)
        → meaning.set_meant catalog.now cube (tree.Picked at path.now picks)
        ≡ Ok (part_meant catalog.now cube part)) }
    ensures own { IfOk result (IsPartOf catalog.now cube) }
    ensures fault { IfErr result (λ fault. (at : ℕ) → IsFaultOf fault
        (meaning.set_meant catalog.now cube (tree.Picked at path.now picks))) }
{
    match picks {
        Picks::Itself => itself(alloc, catalog, cube, path),
        Picks::Members => level_part(alloc, catalog, cube, path),
        Picks::Children => child_part(alloc, catalog, cube, path),
    }
}

// The member that a path means, alone.
fn itself(
    alloc: Global,
    catalog: &Catalog,
    cube: CubeId,
    path: &[Text],
) -> Result<Part, ResolveFault>
    requires { cube < length catalog.now.cubes }
    ensures ok { IfOk result (λ part. (at : ℕ)
        → meaning.set_meant catalog.now cube (tree.Picked at path.now picks.Itself)
        ≡ Ok (part_meant catalog.now cube part)) }
    ensures own { IfOk result (IsPartOf catalog.now cube) }
    ensures fault { IfErr result (λ fault. (at : ℕ) → IsFaultOf fault
        (meaning.set_meant catalog.now cube (tree.Picked at path.now picks.Itself))) }
{
    let found = member_at(alloc, catalog, cube, path)?;
    let roots = one_root(alloc, root_of(&found))?;
    let mut members = List::new(alloc);
    members.push(found)?;
    Ok(Part {
        roots,
        is_open: false,
        count: 1,
        plan: Plan::Tuple(members),
    })
}

// The members of the level that a path means.
fn level_part(
    alloc: Global,
    catalog: &Catalog,
    cube: CubeId,
    path: &[Text],
) -> Result<Part, ResolveFault>
    requires { cube < length catalog.now.cubes }
    ensures ok { IfOk result (λ part. (at : ℕ)
        → meaning.set_meant catalog.now cube (tree.Picked at path.now picks.Members)
        ≡ Ok (part_meant catalog.now cube part)) }
    ensures own { IfOk result (IsPartOf catalog.now cube) }
    ensures fault { IfErr result (λ fault. (at : ℕ) → IsFaultOf fault
        (meaning.set_meant catalog.now cube (tree.Picked at path.now picks.Members))) }
{
    let level = level_at(alloc, catalog, cube, path)?;
    let roots = one_root(alloc, level_root(&level))?;
    let count = level_count(catalog, cube, &level);
    Ok(Part {
        roots,
        is_open: false,
        count,
        plan: Plan::Members(level),
    })
}

// How many members a level has.
fn level_count(catalog: &Catalog, cube: CubeId, level: &LevelRef) -> u64
    requires known { cube < length catalog.now.cubes }
    requires level { IsLevelIn catalog.now level.now }
    ensures { result ≡ length (level_members catalog.now cube level.now) }
{
    catalog.level_count(cube, *level)
}

// The children of the member that a path means.
fn child_part(
    alloc: Global,
    catalog: &Catalog,
    cube: CubeId,
    path: &[Text],
) -> Result<Part, ResolveFault>
    requires { cube < length catalog.now.cubes }
    ensures ok { IfOk result (λ part. (at : ℕ)
        → meaning.set_meant catalog.now cube (tree.Picked at path.now picks.Children)
        ≡ Ok (part_meant catalog.now cube part)) }
    ensures own { IfOk result (IsPartOf catalog.now cube) }
    ensures fault { IfErr result (λ fault. (at : ℕ) → IsFaultOf fault
        (meaning.set_meant catalog.now cube (tree.Picked at path.now picks.Children))) }
{
    let found = member_at(alloc, catalog, cube, path)?;
    let roots = one_root(alloc, root_of(&found))?;
    Ok(Part {
        roots,
        is_open: false,
        count: u64::from(catalog.child_count(&found)),
        plan: Plan::Children(found),
    })
}

/// The tuple of these paths.
pub(crate) fn tuple_part(
    alloc: Global,
    catalog: &Catalog,
    cube: CubeId,
    paths: &[List<Text>],
) -> Result<Part, ResolveFault>
    requires { cube < length catalog.now.cubes }
    ensures ok { IfOk result (λ part. (at : ℕ)
        → meaning.set_meant catalog.now cube (tree.Tuple at paths.now)
        ≡ Ok (part_meant catalog.now cube part)) }
    ensures own { IfOk result (IsPartOf catalog.now cube) }
    ensures fault { IfErr result (λ fault. (at : ℕ) → IsFaultOf fault
        (meaning.set_meant catalog.now cube (tree.Tuple at paths.now))) }
{
    let members = tuple_at(alloc, catalog, cube, paths)?;
    let roots = roots_of(alloc, members.as_slice())?;
    Ok(Part {
        roots,
        is_open: false,
        count: 1,
        plan: Plan::Tuple(members),
    })
}

/// The Crossjoin of two sets.
pub(crate) fn crossed(
    alloc: Global,
    catalog: &Catalog,
    cube: CubeId,
    first: Part,
    second: Part,
) -> Result<Part, ResolveFault>
    requires first { IsPartOf catalog.now cube first }
    requires second { IsPartOf catalog.now cube second }
    ensures ok { IfOk result (λ part. crossing catalog.now
        (part_meant catalog.now cube first) (part_meant catalog.now cube second)
        ≡ Ok (part_meant catalog.now cube part)) }
    ensures own { IfOk result (IsPartOf catalog.now cube) }
    ensures fault { IfErr result (λ fault. IsFaultOf fault (crossing catalog.now
        (part_meant catalog.now cube first) (part_meant catalog.now cube second))) }
{
    let mut first = first;
    share_roots(alloc, catalog, &mut first.roots, second.roots.as_slice())?;
    let count = first.count.saturating_mul(second.count);
    let plan = crossed_plan(alloc, count, first.plan, second.plan)?;
    Ok(Part {
        roots: first.roots,
        is_open: first.is_open || second.is_open,
        count,
        plan,
    })
}

// Puts roots after others, and refuses a hierarchy that then stands twice.
fn share_roots(
    alloc: Global,
    catalog: &Catalog,
    roots: &mut List<LevelRef>,
    more: &[LevelRef],
) -> Result<(), ResolveFault>
    requires roots { All (IsLevelIn catalog.now) roots.old }
    requires more { All (IsLevelIn catalog.now) more.now }
    ensures added { OnOk result (roots.new ≡ roots.old ++ more.now) }
    ensures ok { OnOk result (meaning.twice catalog.now (roots.old ++ more.now) ≡ None) }
    ensures fault { IfErr result
        (λ fault. IsReason fault (meaning.twice catalog.now (roots.old ++ more.now))) }
{
    add_roots(roots, more)?;
    refuse_twice(alloc, catalog, roots.as_slice())
}

// What lists this many tuples of a Crossjoin. Where there are none, nothing of its sets is listed.
fn crossed_plan(alloc: Global, count: u64, first: Plan, second: Plan) -> Result<Plan, OutOfMemory>
    ensures listed { IfOk result (λ plan. (catalog : Catalog) (cube : ℕ)
        → count ≡ min (length (pairs_of catalog cube first second)) most_told
        → listed catalog cube plan ≡ pairs_of catalog cube first second) }
    ensures own { IfOk result (λ plan. (catalog : Catalog) (cube : ℕ)
        → IsPlanOf catalog cube first → IsPlanOf catalog cube second → IsPlanOf catalog cube plan) }
{
    if count == 0 {
        drop(first);
        drop(second);
        return Ok(Plan::Joined(Vec::new(alloc)));
    }
    let first = Box::new(alloc, first)?;
    let second = Box::new(alloc, second)?;
    Ok(Plan::Cross(first, second))
}
