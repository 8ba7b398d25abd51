//! Ranges of members.
ghost use Rattle.std.specs.Prelude.{◌≡◌, ◌≤◌, ◌<◌, suc, Ok, None, drop, length, position, take, IfOk, IfErr, OnOk};
ghost use Rattle.olap_meaning.specs.MemberOf.{IsMemberOf};
ghost use Rattle.query_meaning.specs.RegionMeaning as meaning;
ghost use Rattle.region_algebra.specs.Faults.{IsFaultOf, IsReason};
ghost use Rattle.region_algebra.specs.Regions.{IsBoundedOf};

use crate::copies::copy_member;
use crate::fault::RegionFault;
use crate::levels::{in_one_level, is_member, level_around};
use crate::limits::refuse_many;
use crate::members::{dim_of, members_region};
use olap_catalog::Catalog;
use olap_meaning::{CubeId, List, Member, Region};
use std::alloc::Global;

/// The region of the members from one to another, both counted, in hierarchical order: the box of each. It has none where
/// the first stands after the last. The ends stand in one level of one hierarchy, and the members are counted before a
/// box is made.
pub fn range(
    alloc: Global,
    catalog: &Catalog,
    cube: CubeId,
    first: &Member,
    last: &Member,
) -> Result<Region, RegionFault>
    requires known { cube < length catalog.now.cubes }
    requires first { IsMemberOf catalog.now cube first.now }
    requires last { IsMemberOf catalog.now cube last.now }
    ensures ok { IfOk result
        (λ region. meaning.range_meant catalog.now cube first.now last.now ≡ Ok region) }
    ensures own { IfOk result (IsBoundedOf catalog.now cube) }
    ensures fault { IfErr result (λ fault. IsFaultOf fault
        (meaning.range_meant catalog.now cube first.now last.now)) }
{
    refuse_levels(alloc, first, last)?;
    let level = level_around(alloc, catalog, cube, first)?;
    let members = between(alloc, level, first, last);
    refuse_many(members.len() as u64)?;
    let dimension = dim_of(catalog, first);
    let region = members_region(alloc, catalog, cube, dimension, members)?;
    Ok(region)
}

// Refuses ends in two levels.
fn refuse_levels(alloc: Global, first: &Member, last: &Member) -> Result<(), RegionFault>
    ensures ok { OnOk result (meaning.two_levels first.now last.now ≡ None) }
    ensures fault { IfErr result
        (λ fault. IsReason fault (meaning.two_levels first.now last.now)) }
{
    if in_one_level(first, last) {
        return Ok(());
    }
    let first = copy_member(alloc, first)?;
    let second = copy_member(alloc, last)?;
    Err(RegionFault::RangeLevels { first, second })
}

// The place of a member among some.
fn place_of(members: &[Member], member: &Member) -> Option<usize>
    ensures { result ≡ position (meaning.is_member member.now) members.now }
{
    members.iter().position(|other| is_member(member, other))
}

// The members from one place of some to another, both counted.
fn cut(members: List<Member>, from: usize, to: usize) -> List<Member>
    requires order { from ≤ to }
    requires within { to < length members }
    ensures { result ≡ drop from (take (suc to) members) }
{
    let mut kept = members.into_vec();
    kept.truncate(to + 1);
    kept.rotate_left(from);
    kept.truncate(to + 1 - from);
    List::from_vec(kept)
}

// The members from one to another, by their places: none where the first stands after the last, or one of them is missing.
fn between(alloc: Global, members: List<Member>, first: &Member, last: &Member) -> List<Member>
    ensures { result
        ≡ meaning.between (position (meaning.is_member first.now) members)
        (position (meaning.is_member last.now) members) members }
{
    let Some(from) = place_of(members.as_slice(), first) else {
        return List::new(alloc);
    };
    let Some(to) = place_of(members.as_slice(), last) else {
        return List::new(alloc);
    };
    if to < from {
        return List::new(alloc);
    }
    cut(members, from, to)
}
