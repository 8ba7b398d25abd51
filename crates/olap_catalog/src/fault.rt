//! Why a path of names means nothing.
use olap_meaning::Text;
use std::fmt;

/// Why a path of names means no member.
#[derive(Debug, Drop)]
pub enum NameFault {
    /// The first name without a match.
    UnknownMember { name: Text },
    OutOfMemory,
}

impl fmt::Display for NameFault {
    fn fmt<W: fmt::Write>(&self, f: &mut fmt::Formatter<W>) -> fmt::Result {
        match self {
            NameFault::UnknownMember { name } => write!(f, "no member {name}"),
            NameFault::OutOfMemory => f.write_str("out of memory"),
        }
    }
}
