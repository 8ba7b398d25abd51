//! Why no grid was read.

use thiserror::Error;

/// Why no grid was read.
#[derive(Clone, Copy, Debug, Error, PartialEq, Eq)]
pub enum GridFault {
    /// The bytes do not have the form of a grid.
    #[error("no grid")]
    NotGrid,
    #[error("out of memory")]
    OutOfMemory,
}
