//! Why a query means no axes.
ghost use Rattle.std.specs.Prelude.{◌≡◌, ◌⊎◌};
ghost use Rattle.cell_request.specs.Faults.{fault_of};

use olap_catalog::NameFault;
use olap_meaning::{OutOfMemory, Text};

/// Why a query means no axes.
#[derive(Debug, Drop)]
pub enum ResolveFault {
    /// No cube has this name.
    UnknownCube { name: Text },
    /// The first name without a match in the cube, or one name too many of a level.
    UnknownMember { name: Text },
    /// The full name of the first hierarchy that stands twice.
    AxisTwice { hierarchy: Text },
    /// The byte at which an item in braces begins whose hierarchies are not those of the first item that is not open.
    MixedSet { at: u32 },
    /// More cells than the limit.
    TooManyCells { count: u64, limit: u32 },
    OutOfMemory,
}

impl From<OutOfMemory> for ResolveFault {
    ghost use Rattle.cell_request.specs.declared.fault.ResolveFault.TheVariants.{OutOfMemory as WantOfMemory};

    ghost from_gives = { λ _ e. e ≡ WantOfMemory };

    fn from(_want: OutOfMemory) -> ResolveFault {
        ResolveFault::OutOfMemory
    }
}

// The fault of a name that no cube has.
pub(crate) fn unknown_cube(name: &Text) -> ResolveFault
    ensures { (result ≡ ResolveFault.OutOfMemory) ⊎ (result ≡ ResolveFault.UnknownCube name.now) }
{
    match name.copy() {
        Ok(name) => ResolveFault::UnknownCube { name },
        Err(_) => ResolveFault::OutOfMemory,
    }
}

// The fault of a path without a match.
pub(crate) fn unmatched(fault: NameFault) -> ResolveFault
    ensures { result ≡ fault_of fault }
{
    match fault {
        NameFault::UnknownMember { name } => ResolveFault::UnknownMember { name },
        NameFault::OutOfMemory => ResolveFault::OutOfMemory,
    }
}
