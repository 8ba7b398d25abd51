//! Roots: the measures, which count as a hierarchy, and the hierarchies.
ghost use Rattle.std.specs.Prelude.{◌≡◌, ◌++◌, ◌∷◌, [], None, All, Contains, map, IfOk, IfErr, IfSome, OnOk};
ghost use Rattle.std.specs.List.{list_any};
ghost use Rattle.cell_request.specs.Faults.{IsReason};
ghost use Rattle.olap_meaning.specs.MemberOf.{IsLevelIn};
ghost use Rattle.olap_meaning.specs.Catalog.{root_name};
ghost use Rattle.query_meaning.specs.Resolution as meaning;

use crate::fault::ResolveFault;
use olap_catalog::Catalog;
use olap_meaning::{HierarchyId, LevelRef, List, Member, OutOfMemory, Text};
use std::alloc::Global;

/// The root of a member.
pub(crate) fn root_of(member: &Member) -> LevelRef
    ensures { result ≡ meaning.root_of member.now }
{
    match member {
        Member::Measure(_) => LevelRef::Measures,
        Member::All(h) => LevelRef::Whole(*h),
        Member::At(h, _) => LevelRef::Whole(*h),
    }
}

/// The root of a level.
pub(crate) fn level_root(level: &LevelRef) -> LevelRef
    ensures { result ≡ meaning.level_root level.now }
{
    match level {
        LevelRef::Measures => LevelRef::Measures,
        LevelRef::Whole(h) => LevelRef::Whole(*h),
        LevelRef::One(h, _) => LevelRef::Whole(*h),
    }
}

/// The root alone.
pub(crate) fn one_root(alloc: Global, root: LevelRef) -> Result<List<LevelRef>, OutOfMemory>
    ensures { IfOk result (λ roots. roots ≡ root ∷ []) }
{
    let mut roots = List::new(alloc);
    roots.push(root)?;
    Ok(roots)
}

/// The roots of some members.
pub(crate) fn roots_of(alloc: Global, members: &[Member]) -> Result<List<LevelRef>, OutOfMemory>
    ensures { IfOk result (λ roots. roots ≡ map meaning.root_of members.now) }
{
    let mut roots = List::new(alloc);
    for member in members {
        roots.push(root_of(member))?;
    }
    Ok(roots)
}

/// Adds some roots.
pub(crate) fn add_roots(roots: &mut List<LevelRef>, others: &[LevelRef]) -> Result<(), OutOfMemory>
    ensures { OnOk result (roots.new ≡ roots.old ++ others.now) }
{
    for root in others {
        roots.push(*root)?;
    }
    Ok(())
}

// A root is that of the measures.
fn is_measures(root: LevelRef) -> bool
    ensures { result ≡ meaning.is_root LevelRef.Measures root }
{
    match root {
        LevelRef::Measures => true,
        LevelRef::Whole(_) => false,
        LevelRef::One(_, _) => false,
    }
}

// A root is this hierarchy.
fn is_whole(root: LevelRef, h: HierarchyId) -> bool
    ensures { result ≡ meaning.is_root (LevelRef.Whole h) root }
{
    match root {
        LevelRef::Measures => false,
        LevelRef::Whole(of) => of == h,
        LevelRef::One(_, _) => false,
    }
}

// Two roots are the same.
fn is_root(root: LevelRef, other: LevelRef) -> bool
    ensures { result ≡ meaning.is_root root other }
{
    match root {
        LevelRef::Measures => is_measures(other),
        LevelRef::Whole(h) => is_whole(other, h),
        LevelRef::One(_, _) => false,
    }
}

/// The same roots, in the same order.
pub(crate) fn are_roots(roots: &[LevelRef], others: &[LevelRef]) -> bool
    ensures { result ≡ meaning.are_roots roots.now others.now }
{
    if roots.len() != others.len() {
        return false;
    }
    for (i, root) in roots.iter().enumerate() {
        if !is_root(*root, others[i]) {
            return false;
        }
    }
    true
}

// A root is among some.
fn is_among(roots: &[LevelRef], root: LevelRef) -> bool
    ensures { result ≡ list_any (meaning.is_root root) roots.now }
{
    roots.iter().any(|other| is_root(root, *other))
}

// The first of some roots that is among those before it.
fn first_repeat(roots: &[LevelRef]) -> Option<LevelRef>
    ensures first { result ≡ meaning.first_repeat roots.now }
    ensures own { IfSome result (λ root. Contains roots.now root) }
{
    for (i, root) in roots.iter().enumerate() {
        if is_among(&roots[..i], *root) {
            return Some(*root);
        }
    }
    None
}

// The full name of a root's hierarchy.
fn name_of(alloc: Global, catalog: &Catalog, root: LevelRef) -> Result<Text, OutOfMemory>
    requires { IsLevelIn catalog.now root }
    ensures { IfOk result (λ name. name ≡ root_name catalog.now root) }
{
    match root {
        LevelRef::Measures => Text::from_str(alloc, "Measures"),
        LevelRef::Whole(h) => Text::from_str(alloc, catalog.full_name(h)),
        LevelRef::One(h, _) => Text::from_str(alloc, catalog.full_name(h)),
    }
}

/// Refuses some roots of which one stands twice.
pub(crate) fn refuse_twice(
    alloc: Global,
    catalog: &Catalog,
    roots: &[LevelRef],
) -> Result<(), ResolveFault>
    requires { All (IsLevelIn catalog.now) roots.now }
    ensures ok { OnOk result (meaning.twice catalog.now roots.now ≡ None) }
    ensures fault { IfErr result
        (λ fault. IsReason fault (meaning.twice catalog.now roots.now)) }
{
    match first_repeat(roots) {
        None => Ok(()),
        Some(root) => {
            let hierarchy = name_of(alloc, catalog, root)?;
            Err(ResolveFault::AxisTwice { hierarchy })
        }
    }
}
