//! Why words are no command line, or are not read.

use thiserror::Error;

/// Why words are no command line, or are not read.
#[derive(Debug, Clone, Copy, PartialEq, Eq, Error)]
pub enum CommandFault {
    /// The words are no command line.
    #[error("no command line")]
    Usage,
    /// There was no memory to read them.
    #[error("out of memory")]
    OutOfMemory,
}
