//! What lists the tuples of a set.
ghost use Rattle.std.specs.Prelude.{ℕ, ◌≡◌, ◌<◌, ◌++◌, ◌∷◌, [], All, flat_map, length, map, IfOk, OnOk};
ghost use Rattle.cell_request.specs.Plans.{alone, listed, IsPlanOf};
ghost use Rattle.olap_meaning.specs.Catalog as meaning;
ghost use Rattle.olap_meaning.specs.MemberOf.{IsLevelIn, IsMemberOf};
ghost use Rattle.query_meaning.specs.OwnAxes.{AreTuplesOf};
ghost use Rattle.query_meaning.specs.Resolution.{pairs};

use olap_catalog::Catalog;
use olap_meaning::{CubeId, LevelRef, List, Member, OutOfMemory, ValueId};
use std::alloc::Global;

/// What lists the tuples of a set.
#[derive(Drop)]
pub(crate) enum Plan {
    /// One tuple of these members.
    Tuple(List<Member>),
    /// The members of a level, each in a tuple of its own.
    Members(LevelRef),
    /// The children of a member, each in a tuple of its own.
    Children(Member),
    /// Each tuple of the first with each of the second.
    Cross(Box<Plan>, Box<Plan>),
    /// The tuples of each, in their order.
    Joined(Vec<Plan>),
}

/// The tuples that a plan lists.
#[cycle(listing)]
pub(crate) fn tuples_of(
    alloc: Global,
    catalog: &Catalog,
    cube: CubeId,
    plan: &Plan,
) -> Result<List<List<Member>>, OutOfMemory>
    requires known { cube < length catalog.now.cubes }
    requires own { IsPlanOf catalog.now cube plan.now }
    ensures listed { IfOk result (λ tuples. tuples ≡ listed catalog.now cube plan.now) }
    ensures own { IfOk result (AreTuplesOf catalog.now cube) }
{
    match plan {
        Plan::Tuple(members) => one_tuple(alloc, members.as_slice()),
        Plan::Members(level) => level_tuples(alloc, catalog, cube, *level),
        Plan::Children(parent) => child_tuples(alloc, catalog, parent),
        Plan::Cross(first, second) => {
            let firsts = tuples_of(alloc, catalog, cube, first)?;
            let seconds = tuples_of(alloc, catalog, cube, second)?;
            paired(alloc, firsts.as_slice(), seconds.as_slice())
        }
        Plan::Joined(plans) => joined(alloc, catalog, cube, plans.as_slice()),
    }
}

// The tuples of each plan, in their order.
#[cycle(listing)]
fn joined(
    alloc: Global,
    catalog: &Catalog,
    cube: CubeId,
    plans: &[Plan],
) -> Result<List<List<Member>>, OutOfMemory>
    requires known { cube < length catalog.now.cubes }
    requires own { All (IsPlanOf catalog.now cube) plans.now }
    ensures listed { IfOk result
        (λ tuples. tuples ≡ flat_map (listed catalog.now cube) plans.now) }
    ensures own { IfOk result (AreTuplesOf catalog.now cube) }
{
    let mut tuples = List::new(alloc);
    for plan in plans {
        let more = tuples_of(alloc, catalog, cube, plan)?;
        add_tuples(&mut tuples, more)?;
    }
    Ok(tuples)
}

// The tuple of these members.
fn one_tuple(alloc: Global, members: &[Member]) -> Result<List<List<Member>>, OutOfMemory>
    ensures { IfOk result (λ tuples. tuples ≡ members.now ∷ []) }
{
    let mut tuple = List::new(alloc);
    add_members(alloc, &mut tuple, members)?;
    let mut tuples = List::new(alloc);
    tuples.push(tuple)?;
    Ok(tuples)
}

// The members of a level, each in a tuple of its own.
fn level_tuples(
    alloc: Global,
    catalog: &Catalog,
    cube: CubeId,
    level: LevelRef,
) -> Result<List<List<Member>>, OutOfMemory>
    requires known { cube < length catalog.now.cubes }
    requires level { IsLevelIn catalog.now level }
    ensures listed { IfOk result
        (λ tuples. tuples ≡ alone (meaning.level_members catalog.now cube level)) }
    ensures own { IfOk result (AreTuplesOf catalog.now cube) }
{
    let members = catalog.level_members(alloc, cube, level)?;
    alone(alloc, members)
}

// The children of a member, each in a tuple of its own.
fn child_tuples(
    alloc: Global,
    catalog: &Catalog,
    parent: &Member,
) -> Result<List<List<Member>>, OutOfMemory>
    ensures listed { IfOk result (λ tuples. tuples ≡ alone (meaning.children catalog.now parent.now)) }
    ensures own { IfOk result (λ tuples. (cube : ℕ) → AreTuplesOf catalog.now cube tuples) }
{
    let members = catalog.children(alloc, parent)?;
    alone(alloc, members)
}

// Some members, each in a tuple of its own.
fn alone(alloc: Global, members: List<Member>) -> Result<List<List<Member>>, OutOfMemory>
    ensures { IfOk result (λ tuples. tuples ≡ alone members) }
{
    let mut tuples = List::new(alloc);
    for member in members.into_vec() {
        let mut tuple = List::new(alloc);
        tuple.push(member)?;
        tuples.push(tuple)?;
    }
    Ok(tuples)
}

// Adds some tuples.
fn add_tuples(tuples: &mut List<List<Member>>, more: List<List<Member>>) -> Result<(), OutOfMemory>
    ensures { OnOk result (tuples.new ≡ tuples.old ++ more) }
{
    for tuple in more.into_vec() {
        tuples.push(tuple)?;
    }
    Ok(())
}

// Each tuple of the first with each of the second: the first varies slowest.
fn paired(
    alloc: Global,
    firsts: &[List<Member>],
    seconds: &[List<Member>],
) -> Result<List<List<Member>>, OutOfMemory>
    ensures { IfOk result (λ tuples. tuples ≡ pairs firsts.now seconds.now) }
{
    let mut tuples = List::new(alloc);
    for first in firsts {
        add_pairs(alloc, &mut tuples, first.as_slice(), seconds)?;
    }
    Ok(tuples)
}

// Adds a tuple with each of some.
fn add_pairs(
    alloc: Global,
    tuples: &mut List<List<Member>>,
    first: &[Member],
    seconds: &[List<Member>],
) -> Result<(), OutOfMemory>
    ensures { OnOk result (tuples.new ≡ tuples.old ++ map (λ second. first.now ++ second) seconds.now) }
{
    for second in seconds {
        let mut tuple = List::new(alloc);
        add_members(alloc, &mut tuple, first)?;
        add_members(alloc, &mut tuple, second.as_slice())?;
        tuples.push(tuple)?;
    }
    Ok(())
}

// Adds copies of some members.
fn add_members(
    alloc: Global,
    tuple: &mut List<Member>,
    members: &[Member],
) -> Result<(), OutOfMemory>
    ensures { OnOk result (tuple.new ≡ tuple.old ++ members.now) }
{
    for member in members {
        tuple.push(copy_member(alloc, member)?)?;
    }
    Ok(())
}

// A copy of a member.
fn copy_member(alloc: Global, member: &Member) -> Result<Member, OutOfMemory>
    ensures { IfOk result (λ copy. copy ≡ member.now) }
{
    match member {
        Member::Measure(m) => Ok(Member::Measure(*m)),
        Member::All(h) => Ok(Member::All(*h)),
        Member::At(h, path) => {
            let path = copy_path(alloc, path.as_slice())?;
            Ok(Member::At(*h, path))
        }
    }
}

// A copy of a path.
fn copy_path(alloc: Global, path: &[ValueId]) -> Result<List<ValueId>, OutOfMemory>
    ensures { IfOk result (λ copy. copy ≡ path.now) }
{
    let mut copy = List::new(alloc);
    for value in path {
        copy.push(*value)?;
    }
    Ok(copy)
}
