//! How a tree of members is built, leaf by leaf.
ghost use Rattle.std.specs.Prelude.{◌≡◌, ◌<◌, ◌≤◌, ◌++◌, ◌∷◌, [], length, replicate, IfOk};
ghost use Rattle.member_trees.specs.Numbered.{AreNumbered};

use crate::level::Level;
use crate::rows::rows;
use crate::tree::MemberTree;
use olap_meaning::schema::{LEVEL_LIMIT, RECORD_LIMIT};
use olap_meaning::{List, OutOfMemory, ValueId};
use std::alloc::Global;
use std::marker::Model;
use traces::Trace;

/// A tree of members that is built from the paths of the leaves, in the order of the table.
#[derive(Drop)]
pub struct TreeBuilder {
    alloc: Global,
    levels: Vec<Level>,
    of: Trace<List<ValueId>>,
}

impl Model for TreeBuilder {
    ghost use Rattle.std.specs.Prelude.{length};
    ghost use Rattle.member_trees.specs.Trees.{TreeOf};
    ghost use Rattle.member_trees.specs.Numbered.{AreNumbered};

    ghost Value = { TreeOf };

    ghost view = { λ b. record { levels = length b.levels.items; leaves = b.of.items } };

    ghost invariant = { λ b. AreNumbered b.of.items b.levels.items };
}

impl TreeBuilder {
    /// The tree of no leaf, of this many levels.
    pub fn new(alloc: Global, levels: u32) -> Result<TreeBuilder, OutOfMemory>
        requires { levels ≤ LEVEL_LIMIT }
        ensures { IfOk result (λ b. b ≡ record { levels = levels; leaves = [] }) }
    {
        Ok(TreeBuilder {
            alloc,
            levels: empty_levels(alloc, levels)?,
            of: Trace::new(),
        })
    }

    /// Adds a leaf, by its path.
    pub fn push(self, path: &[ValueId]) -> Result<TreeBuilder, OutOfMemory>
        requires whole { length path.now ≡ self.levels }
        requires room { length self.leaves < RECORD_LIMIT }
        ensures { IfOk result
            (λ b. b ≡ record { levels = self.levels; leaves = self.leaves ++ path.now ∷ [] }) }
    {
        let TreeBuilder { alloc, levels, of } = self;
        let levels = with_leaf(levels, &of, path)?;
        let leaf = List::from_vec(Vec::from_slice(alloc, path)?);
        Ok(TreeBuilder {
            alloc,
            levels,
            of: of.and(&leaf),
        })
    }

    /// The tree of the leaves that were added.
    pub fn finish(self) -> Result<MemberTree, OutOfMemory>
        ensures { IfOk result (λ tree. tree ≡ self) }
    {
        let TreeBuilder { alloc, levels, of } = self;
        let rows = rows(alloc, levels.as_slice(), &of)?;
        Ok(MemberTree {
            levels: levels.len() as u32,
            rows,
            of,
        })
    }
}

/// This many levels with no member.
fn empty_levels(alloc: Global, count: u32) -> Result<Vec<Level>, OutOfMemory>
    ensures { IfOk result (λ levels. levels.items ≡ replicate count []) }
{
    let mut levels = Vec::new(alloc);
    for _ in 0..count {
        levels.push(Level::new(alloc))?;
    }
    Ok(levels)
}

/// The levels with one leaf more, which is numbered from the top.
fn with_leaf(
    mut levels: Vec<Level>,
    of: &Trace<List<ValueId>>,
    path: &[ValueId],
) -> Result<Vec<Level>, OutOfMemory>
    requires whole { length path.now ≡ length levels.items }
    requires room { length of.now.items < RECORD_LIMIT }
    requires numbered { AreNumbered of.now.items levels.items }
    ensures levels { IfOk result (λ after. length after.items ≡ length levels.items) }
    ensures numbered { IfOk result
        (λ after. AreNumbered (of.now.items ++ path.now ∷ []) after.items) }
{
    let mut parent = 0;
    for (depth, value) in path.iter().enumerate() {
        parent = levels[depth].number(parent, *value)?;
    }
    Ok(levels)
}
