//! Where a reader of flushes stands.

use olap_meaning::{List, Text};
use query_meaning::{Joins, RegionTree, RegionTrees};
use text_forms::Stack;

/// Parts that are not closed yet: how they are joined, how many depths are left below each of them, and those that were
/// read.
#[derive(Drop)]
pub struct Frame {
    pub joins: Joins,
    pub left: u8,
    pub front: RegionTrees,
}

/// What a keyword opens.
#[derive(Drop)]
pub enum Opens {
    Member,
    Range,
    /// Parts that are joined so, and how many depths are left below each of them.
    Parts(Joins, u8),
}

/// Whose path a path is.
#[derive(Drop)]
pub enum PathOf {
    Member,
    /// The first member of a range.
    First,
    /// The last member of a range, after the first.
    Last(List<Text>),
}

/// A reader in the middle of a flush. After the name of its cube stands what is open, from the innermost parts on.
#[derive(Drop)]
pub enum Place {
    /// Before the cube's name.
    ACube,
    /// Before a region below which this many depths are left.
    ARegion(Text, Stack<Frame>, u8),
    /// After a keyword, before its "(".
    Opening(Text, Stack<Frame>, Opens),
    /// Before a name of a path, after these names.
    AName(Text, Stack<Frame>, PathOf, List<Text>),
    /// In a path, after these names.
    AfterName(Text, Stack<Frame>, PathOf, List<Text>),
    /// After a region.
    AfterRegion(Text, Stack<Frame>, RegionTree),
}
