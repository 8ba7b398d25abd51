//! The members of a hierarchy.
ghost use Rattle.std.specs.Prelude.{◌≡◌, ◌≤◌, [], length, IfOk};
ghost use Rattle.olap_meaning.specs.Catalog.{at_depth, below, under};

use crate::node::Node;
use olap_meaning::{List, OutOfMemory, ValueId};
use std::alloc::Global;
use std::marker::Model;
use traces::Trace;

/// The members of a hierarchy in hierarchical order, level by level, each kept once (Schema Guide, "Dimensions,
/// Hierarchies, Levels"). A path is a member's values from the top.
#[derive(Drop)]
pub struct MemberTree {
    pub(crate) levels: u32,
    pub(crate) rows: List<List<Node>>,
    pub(crate) of: Trace<List<ValueId>>,
}

impl Model for MemberTree {
    ghost use Rattle.member_trees.specs.Trees.{TreeOf};
    ghost use Rattle.member_trees.specs.Nodes.{AreKept};

    ghost Value = { TreeOf };

    ghost view = { λ t. record { levels = t.levels; leaves = t.of.items } };

    ghost invariant = { λ t. AreKept t.levels t.of.items t.rows };
}
