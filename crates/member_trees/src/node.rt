//! Nodes of a tree of members.

use olap_meaning::ValueId;

/// A member, by its parent's place in the level above, its value, and the place in the level below at which its children
/// begin. The parent of a member of the first level is 0.
#[derive(Clone, Copy, Debug, PartialEq, Eq)]
pub struct Node {
    pub(crate) parent: u32,
    pub value: ValueId,
    pub(crate) first: u32,
}
