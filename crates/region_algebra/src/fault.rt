//! Why a flush means no region.
ghost use Rattle.std.specs.Prelude.{◌≡◌, ◌⊎◌};
ghost use Rattle.region_algebra.specs.Faults.{fault_of};

use olap_catalog::NameFault;
use olap_meaning::{List, Member, OutOfMemory, RegionDim, Text};

/// Why the text of a flush means no region, or regions can not be joined. The limit is that of the boxes of a region.
#[derive(Drop)]
pub enum RegionFault {
    /// No cube has this name.
    UnknownCube {
        name: Text,
    },
    /// The first name without a match in the cube.
    UnknownMember {
        name: Text,
    },
    /// The first dimension of a crossjoin that stood earlier already.
    CommonDimension {
        dimension: RegionDim,
    },
    /// The dimensions of the first part of a union, and those of the first part that is of others.
    Mismatch {
        first: List<RegionDim>,
        second: List<RegionDim>,
    },
    /// The measures are not among the dimensions of a flush.
    NoMeasures,
    /// The ends of a range, which are of two hierarchies or levels.
    RangeLevels {
        first: Member,
        second: Member,
    },
    /// More boxes than the limit.
    TooManyBoxes {
        count: u64,
        limit: u32,
    },
    OutOfMemory,
}

impl From<OutOfMemory> for RegionFault {
    ghost use Rattle.region_algebra.specs.declared.fault.RegionFault.TheVariants.{OutOfMemory as WantOfMemory};

    ghost from_gives = { λ _ e. e ≡ WantOfMemory };

    fn from(_want: OutOfMemory) -> RegionFault {
        RegionFault::OutOfMemory
    }
}

// The fault of a name that no cube has.
pub(crate) fn unknown_cube(name: &Text) -> RegionFault
    ensures { (result ≡ RegionFault.OutOfMemory) ⊎ (result ≡ RegionFault.UnknownCube name.now) }
{
    match name.copy() {
        Ok(name) => RegionFault::UnknownCube { name },
        Err(_) => RegionFault::OutOfMemory,
    }
}

// The fault of a path without a match.
pub(crate) fn unmatched(fault: NameFault) -> RegionFault
    ensures { result ≡ fault_of fault }
{
    match fault {
        NameFault::UnknownMember { name } => RegionFault::UnknownMember { name },
        NameFault::OutOfMemory => RegionFault::OutOfMemory,
    }
}
