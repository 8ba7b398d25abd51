//! The members that paths of names mean.
ghost use Rattle.std.specs.Prelude.{◌≡◌, ◌<◌, Ok, length, IfOk, IfErr};
ghost use Rattle.olap_meaning.specs.MemberOf.{IsMemberOf};
ghost use Rattle.query_meaning.specs.RegionMeaning.{region_member};
ghost use Rattle.region_algebra.specs.Faults.{IsFaultOf};

use crate::fault::{RegionFault, unmatched};
use olap_catalog::Catalog;
use olap_meaning::{CubeId, Member, Text};
use std::alloc::Global;

/// The member that a path means.
pub(crate) fn member_at(
    alloc: Global,
    catalog: &Catalog,
    cube: CubeId,
    path: &[Text],
) -> Result<Member, RegionFault>
    requires { cube < length catalog.now.cubes }
    ensures ok { IfOk result (λ member. region_member catalog.now cube path.now ≡ Ok member) }
    ensures own { IfOk result (IsMemberOf catalog.now cube) }
    ensures fault { IfErr result
        (λ fault. IsFaultOf fault (region_member catalog.now cube path.now)) }
{
    if path.is_empty() {
        return Err(RegionFault::UnknownMember {
            name: Text::new(alloc),
        });
    }
    match catalog.find_member(alloc, cube, path) {
        Ok(member) => Ok(member),
        Err(fault) => Err(unmatched(fault)),
    }
}
