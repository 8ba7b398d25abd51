//! What is kept of a cell beside its values.

/// Of a cell: the number of its kind, and that of its list of loads.
#[derive(Clone, Copy)]
pub(crate) struct Numbers {
    pub(crate) kind: u32,
    pub(crate) loads: u32,
}
