//! Why a batch is refused.
ghost use Rattle.std.specs.Prelude.{◌≡◌};

use olap_meaning::OutOfMemory;
use thiserror::Error;

/// Why a batch is refused.
#[derive(Clone, Copy, Debug, PartialEq, Eq, Error)]
pub enum AppendFault {
    /// With the batch there would be `total` rows over all cubes.
    #[error("{total} rows are more than the limit of {limit}")]
    TooManyRows { total: u64, limit: u32 },
    /// The cube has as many versions as it may.
    #[error("the cube is at version {limit}, the greatest")]
    TooManyVersions { limit: u32 },
    #[error("out of memory")]
    OutOfMemory,
}

impl From<OutOfMemory> for AppendFault {
    ghost use Rattle.fact_versions.specs.declared.faults.AppendFault.TheVariants.{OutOfMemory as NoMemory};

    ghost from_gives = { λ _ fault. fault ≡ NoMemory };

    fn from(_error: OutOfMemory) -> AppendFault {
        AppendFault::OutOfMemory
    }
}
