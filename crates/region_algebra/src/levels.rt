//! The levels that members stand in.
ghost use Rattle.std.specs.Prelude.{◌≡◌, ◌<◌, ◌+◌, ◌∷◌, [], true, All, length, IfOk, bytes_eq};
ghost use Rattle.olap_meaning.specs.Catalog.{all_member, members_with, paths_at};
ghost use Rattle.olap_meaning.specs.MemberOf.{is_path, level_columns, IsMemberOf};
ghost use Rattle.query_meaning.specs.RegionMeaning as meaning;

use olap_catalog::Catalog;
use olap_meaning::{CubeId, HierarchyId, LevelRef, List, Member, OutOfMemory, ValueId};
use std::alloc::Global;

/// Two members stand in one level.
pub(crate) fn in_one_level(first: &Member, second: &Member) -> bool
    ensures { result ≡ meaning.in_one_level first.now second.now }
{
    match (first, second) {
        (Member::Measure(_), Member::Measure(_)) => true,
        (Member::All(g), Member::All(h)) => *g == *h,
        (Member::At(g, path), Member::At(h, other)) => *g == *h && path.len() == other.len(),
        _ => false,
    }
}

/// Two members are the same.
pub(crate) fn is_member(first: &Member, second: &Member) -> bool
    ensures { result ≡ meaning.is_member first.now second.now }
{
    match (first, second) {
        (Member::Measure(m), Member::Measure(n)) => *m == *n,
        (Member::All(g), Member::All(h)) => *g == *h,
        (Member::At(g, path), Member::At(h, other)) => *g == *h && is_same_path(path, other),
        _ => false,
    }
}

// Two paths are the same.
fn is_same_path(path: &List<ValueId>, other: &List<ValueId>) -> bool
    ensures { result ≡ bytes_eq path.now other.now }
{
    path.as_slice() == other.as_slice()
}

/// The members of the level that a member stands in, in hierarchical order.
pub(crate) fn level_around(
    alloc: Global,
    catalog: &Catalog,
    cube: CubeId,
    member: &Member,
) -> Result<List<Member>, OutOfMemory>
    requires known { cube < length catalog.now.cubes }
    requires own { IsMemberOf catalog.now cube member.now }
    ensures members { IfOk result
        (λ members. members ≡ meaning.level_around catalog.now cube member.now) }
    ensures own { IfOk result (All (IsMemberOf catalog.now cube)) }
{
    match member {
        Member::Measure(_) => catalog.level_members(alloc, cube, LevelRef::Measures),
        Member::All(h) => all_alone(alloc, catalog, cube, *h),
        Member::At(h, path) => level_of_path(alloc, catalog, cube, *h, path.as_slice()),
    }
}

// The all member of a hierarchy, which has one.
fn all_alone(
    alloc: Global,
    catalog: &Catalog,
    cube: CubeId,
    h: HierarchyId,
) -> Result<List<Member>, OutOfMemory>
    requires { IsMemberOf catalog.now cube (Member.All h) }
    ensures members { IfOk result (λ members. members ≡ all_member catalog.now h) }
    ensures own { IfOk result (All (IsMemberOf catalog.now cube)) }
{
    one_member(alloc, catalog, cube, Member::All(h))
}

// A member alone.
fn one_member(
    alloc: Global,
    catalog: &Catalog,
    cube: CubeId,
    member: Member,
) -> Result<List<Member>, OutOfMemory>
    requires { IsMemberOf catalog.now cube member }
    ensures members { IfOk result (λ members. members ≡ member ∷ []) }
    ensures own { IfOk result (All (IsMemberOf catalog.now cube)) }
{
    let mut members = List::new(alloc);
    members.push(member)?;
    Ok(members)
}

// The members of a hierarchy that are as deep as a path.
fn level_of_path(
    alloc: Global,
    catalog: &Catalog,
    cube: CubeId,
    h: HierarchyId,
    path: &[ValueId],
) -> Result<List<Member>, OutOfMemory>
    requires known { cube < length catalog.now.cubes }
    requires own { IsMemberOf catalog.now cube (Member.At h path.now) }
    ensures members { IfOk result
        (λ members. members
        ≡ members_with catalog.now h (λ hierarchy. paths_at catalog.now hierarchy (length path.now))) }
    ensures own { IfOk result (All (IsMemberOf catalog.now cube)) }
{
    if path.is_empty() {
        return one_member(alloc, catalog, cube, Member::At(h, List::new(alloc)));
    }
    let level = last_level(catalog, h, path);
    catalog.level_members(alloc, cube, LevelRef::One(h, level))
}

// The level that a path ends in, by its place from the top.
fn last_level(catalog: &Catalog, h: HierarchyId, path: &[ValueId]) -> u32
    requires known { h < length catalog.now.hierarchies }
    requires own { is_path catalog.now (level_columns catalog.now h) path.now ≡ true }
    requires some { 0 < length path.now }
    ensures { result + 1 ≡ length path.now }
{
    catalog.layout_holds();
    let _columns = catalog.column_count();
    (path.len() - 1) as u32
}
