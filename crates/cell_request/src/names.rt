//! The members and the levels that paths of names mean.
ghost use Rattle.std.specs.Prelude.{◌≡◌, ◌<◌, Ok, All, length, IfOk, IfErr};
ghost use Rattle.cell_request.specs.Faults.{IsFaultOf};
ghost use Rattle.cell_request.specs.Parts.{level_meant};
ghost use Rattle.olap_meaning.specs.MemberOf.{IsLevelIn, IsMemberOf};
ghost use Rattle.query_meaning.specs.Resolution.{member_meant, members_meant, tuple_meant};

use crate::fault::{ResolveFault, unmatched};
use crate::roots::{refuse_twice, roots_of};
use olap_catalog::Catalog;
use olap_meaning::{CubeId, LevelRef, List, Member, Text};
use std::alloc::Global;

// The member that a path means.
pub(crate) fn member_at(
    alloc: Global,
    catalog: &Catalog,
    cube: CubeId,
    path: &[Text],
) -> Result<Member, ResolveFault>
    requires { cube < length catalog.now.cubes }
    ensures ok { IfOk result (λ member. member_meant catalog.now cube path.now ≡ Ok member) }
    ensures own { IfOk result (IsMemberOf catalog.now cube) }
    ensures fault { IfErr result
        (λ fault. IsFaultOf fault (member_meant catalog.now cube path.now)) }
{
    if path.is_empty() {
        return Err(ResolveFault::UnknownMember {
            name: Text::new(alloc),
        });
    }
    match catalog.find_member(alloc, cube, path) {
        Ok(member) => Ok(member),
        Err(fault) => Err(unmatched(fault)),
    }
}

// The level that a path means.
pub(crate) fn level_at(
    alloc: Global,
    catalog: &Catalog,
    cube: CubeId,
    path: &[Text],
) -> Result<LevelRef, ResolveFault>
    requires { cube < length catalog.now.cubes }
    ensures ok { IfOk result (λ level. level_meant catalog.now cube path.now ≡ Ok level) }
    ensures own { IfOk result (IsLevelIn catalog.now) }
    ensures fault { IfErr result
        (λ fault. IsFaultOf fault (level_meant catalog.now cube path.now)) }
{
    if path.is_empty() {
        return Err(ResolveFault::UnknownMember {
            name: Text::new(alloc),
        });
    }
    match catalog.find_level(cube, path) {
        Ok(level) => Ok(level),
        Err(fault) => Err(unmatched(fault)),
    }
}

// The members that some paths mean.
fn members_at(
    alloc: Global,
    catalog: &Catalog,
    cube: CubeId,
    paths: &[List<Text>],
) -> Result<List<Member>, ResolveFault>
    requires { cube < length catalog.now.cubes }
    ensures ok { IfOk result
        (λ members. members_meant catalog.now cube paths.now ≡ Ok members) }
    ensures own { IfOk result (All (IsMemberOf catalog.now cube)) }
    ensures fault { IfErr result
        (λ fault. IsFaultOf fault (members_meant catalog.now cube paths.now)) }
{
    let mut members = List::new(alloc);
    for path in paths {
        let member = member_at(alloc, catalog, cube, path.as_slice())?;
        members.push(member)?;
    }
    Ok(members)
}

/// The members of a tuple of paths, of which no two are of one hierarchy.
pub(crate) fn tuple_at(
    alloc: Global,
    catalog: &Catalog,
    cube: CubeId,
    paths: &[List<Text>],
) -> Result<List<Member>, ResolveFault>
    requires { cube < length catalog.now.cubes }
    ensures ok { IfOk result (λ tuple. tuple_meant catalog.now cube paths.now ≡ Ok tuple) }
    ensures own { IfOk result (All (IsMemberOf catalog.now cube)) }
    ensures fault { IfErr result
        (λ fault. IsFaultOf fault (tuple_meant catalog.now cube paths.now)) }
{
    let tuple = members_at(alloc, catalog, cube, paths)?;
    let roots = roots_of(alloc, tuple.as_slice())?;
    refuse_twice(alloc, catalog, roots.as_slice())?;
    Ok(tuple)
}
