//! Why a schema is refused.
ghost use Rattle.std.specs.Prelude.{◌≡◌};
ghost use Rattle.cube_schema.specs.declared.fault.SchemaFault.TheVariants.{OutOfMemory as NoMemory};

use crate::place::SchemaPlace;
use olap_meaning::OutOfMemory;
use thiserror::Error;

/// Why a schema is refused: its first fault, or want of memory.
#[derive(Debug, Clone, Copy, PartialEq, Eq, Error)]
pub enum SchemaFault {
    /// The bytes are no JSON text of UTF-8.
    #[error("the schema is not JSON")]
    NotJson,
    /// A key that must be there is not, or a list that must have an item is empty: then the place is that of item 0.
    #[error("missing at \"{place}\"")]
    Missing {
        place: SchemaPlace,
    },
    /// A value is of another kind, a name is empty, or a file name breaks its rule.
    #[error("of the wrong kind at \"{place}\"")]
    WrongKind {
        place: SchemaPlace,
    },
    /// A list is too long. The levels are counted over all hierarchies, up to the list at the place.
    #[error("{count} at \"{place}\", where {limit} are the most")]
    TooMany {
        place: SchemaPlace,
        count: usize,
        limit: u32,
    },
    /// A name that is taken already, or a dimension that a cube uses already.
    #[error("named twice at \"{place}\"")]
    TwiceNamed {
        place: SchemaPlace,
    },
    /// An aggregator's text is none of the six.
    #[error("no such aggregator at \"{place}\"")]
    UnknownAggregator {
        place: SchemaPlace,
    },
    /// A source names no dimension of the schema; or of an aggregate table, its cube is none of the schema's, or a
    /// hierarchy none of its cube's.
    #[error("no such dimension at \"{place}\"")]
    UnknownDimension {
        place: SchemaPlace,
    },
    /// A level of an aggregate table is none of its hierarchy.
    #[error("no such level at \"{place}\"")]
    UnknownLevel {
        place: SchemaPlace,
    },
    /// A measure of an aggregate table is none of its cube, or a distinct count.
    #[error("no such measure at \"{place}\"")]
    UnknownMeasure {
        place: SchemaPlace,
    },
    #[error("out of memory")]
    OutOfMemory,
}

impl From<OutOfMemory> for SchemaFault {
    ghost from_gives = { λ _ e. e ≡ NoMemory };

    fn from(_error: OutOfMemory) -> SchemaFault {
        SchemaFault::OutOfMemory
    }
}
