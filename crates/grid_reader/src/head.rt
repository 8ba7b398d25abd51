//! The numbers of a grid's first line.

/// The numbers of a grid's first line: the position of its answer, and how many columns and rows it has.
#[derive(Clone, Copy)]
pub(crate) struct Head {
    pub(crate) position: u64,
    pub(crate) columns: u64,
    pub(crate) rows: u64,
}
