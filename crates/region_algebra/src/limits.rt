//! Numbers of boxes, counted before a box is made.
ghost use Rattle.std.specs.Prelude.{◌≡◌, ◌≤◌, ◌<◌, None, All, IfErr, OnOk};
ghost use Rattle.query_meaning.specs.RegionMeaning as meaning;
ghost use Rattle.region_algebra.specs.Faults.{IsReason};
ghost use Rattle.region_algebra.specs.Regions.{IsBounded};

use crate::fault::RegionFault;
use olap_meaning::Region;
use query_meaning::BOX_LIMIT;

/// Refuses more boxes than the limit.
pub(crate) fn refuse_many(count: u64) -> Result<(), RegionFault>
    ensures ok { OnOk result (count ≤ BOX_LIMIT) }
    ensures many { IfErr result (λ fault. BOX_LIMIT < count) }
    ensures fault { IfErr result (λ fault. fault ≡ RegionFault.TooManyBoxes count BOX_LIMIT) }
{
    if count > u64::from(BOX_LIMIT) {
        return Err(RegionFault::TooManyBoxes {
            count,
            limit: BOX_LIMIT,
        });
    }
    Ok(())
}

/// Refuses the first product of the numbers of boxes, from the first part on, that is above the limit.
pub(crate) fn refuse_product(parts: &[Region]) -> Result<(), RegionFault>
    requires { All IsBounded parts.now }
    ensures ok { OnOk result (meaning.many_crossed 1 (meaning.box_counts parts.now) ≡ None) }
    ensures fault { IfErr result
        (λ fault. IsReason fault (meaning.many_crossed 1 (meaning.box_counts parts.now))) }
{
    let mut product: u64 = 1;
    for part in parts {
        product *= part.boxes.len() as u64;
        refuse_many(product)?;
    }
    Ok(())
}

/// Refuses the first sum of the numbers of boxes, from the first part on, that is above the limit.
pub(crate) fn refuse_sum(parts: &[Region]) -> Result<(), RegionFault>
    requires { All IsBounded parts.now }
    ensures ok { OnOk result (meaning.many_united 0 (meaning.box_counts parts.now) ≡ None) }
    ensures fault { IfErr result
        (λ fault. IsReason fault (meaning.many_united 0 (meaning.box_counts parts.now))) }
{
    let mut sum: u64 = 0;
    for part in parts {
        sum += part.boxes.len() as u64;
        refuse_many(sum)?;
    }
    Ok(())
}
