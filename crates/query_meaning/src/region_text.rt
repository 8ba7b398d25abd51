//! Flushes and their regions, as they are written.
ghost use Rattle.std.specs.Prelude.{◌≡◌, OnErr, OnOk};
ghost use Rattle.query_meaning.specs.RegionTree as tree;
ghost use Rattle.query_meaning.specs.RegionTree.{none, pushed, trees_of};
ghost use Rattle.query_meaning.specs.RegionView.{region_of};

use olap_meaning::{List, OutOfMemory, Text};
use std::alloc::Global;
use std::marker::Model;

/// How the parts of a region are joined.
#[derive(Clone, Copy, Debug, PartialEq, Eq)]
pub enum Joins {
    /// The cells that all parts have.
    Crossjoin,
    /// The cells that some part has.
    Union,
}

/// What a region is.
#[cycle(region)]
#[derive(Drop)]
pub enum RegionShape {
    /// The member of this path.
    Member(List<Text>),
    /// The members from that of the first path to that of the second.
    Range(List<Text>, List<Text>),
    Measures,
    Parts(Joins, RegionTrees),
}

/// A region, as it is written.
#[cycle(region)]
#[derive(Drop)]
pub struct RegionTree {
    pub(crate) shape: RegionShape,
}

/// Some regions, in their order.
#[cycle(region)]
#[derive(Drop)]
pub struct RegionTrees {
    items: Vec<RegionTree>,
}

/// A flush, as it is written: the name of a cube, and which of its cells are flushed.
#[derive(Drop)]
pub struct RegionText {
    pub cube: Text,
    pub region: RegionTree,
}

impl Model for RegionTree {
    ghost use Rattle.query_meaning.specs.RegionTree as tree;
    ghost use Rattle.query_meaning.specs.RegionCodes.{region_code};

    ghost Value = { tree.RegionTree };

    ghost coded = { region_code };

    ghost use Rattle.query_meaning.specs.RegionTree.{region_size};
    ghost use Rattle.query_meaning.specs.RegionView.{region_of};

    ghost view = { λ r. region_of r.shape };

    ghost size = { region_size };

    ghost use Rattle.std.proofs.Common.{arith};
    ghost use Rattle.query_meaning.specs.RegionFalls.{shape_falls};

    ghost size_decreases = { λ a h. omega (arith, shape_falls a.shape) };
}

impl Model for RegionTrees {
    ghost use Rattle.query_meaning.specs.RegionTree as tree;
    ghost use Rattle.query_meaning.specs.RegionCodes.{regions_code};

    ghost Value = { tree.RegionTrees };

    ghost coded = { regions_code };

    ghost use Rattle.query_meaning.specs.RegionTree.{trees_of, trees_size};

    ghost view = { λ r. trees_of r.items.items };

    ghost size = { trees_size };

    ghost use Rattle.std.proofs.Common.{arith};
    ghost use Rattle.query_meaning.specs.RegionSizes.{most_trees};

    ghost size_decreases = { λ a h. omega (arith, most_trees a.items.items) };
}

impl RegionTree {
    /// The region of the member of a path.
    pub fn member(path: List<Text>) -> RegionTree
        ensures { result ≡ tree.Member path }
    {
        RegionTree {
            shape: RegionShape::Member(path),
        }
    }

    /// The region of the members from that of one path to that of another.
    pub fn range(first: List<Text>, last: List<Text>) -> RegionTree
        ensures { result ≡ tree.Range first last }
    {
        RegionTree {
            shape: RegionShape::Range(first, last),
        }
    }

    /// The region of all measures.
    pub fn measures() -> RegionTree
        ensures { result ≡ tree.Measures }
    {
        RegionTree {
            shape: RegionShape::Measures,
        }
    }

    /// The region of some parts.
    pub fn parts(joins: Joins, parts: RegionTrees) -> RegionTree
        ensures { result ≡ tree.Parts joins parts }
    {
        RegionTree {
            shape: RegionShape::Parts(joins, parts),
        }
    }

    /// What the region is.
    pub fn shape(&self) -> &RegionShape
        ensures { region_of result.now ≡ self.now }
    {
        &self.shape
    }
}

impl RegionTrees {
    pub fn new(alloc: Global) -> RegionTrees
        ensures { result ≡ none }
    {
        RegionTrees {
            items: Vec::new(alloc),
        }
    }

    /// Adds a region at the end.
    pub fn push(&mut self, region: RegionTree) -> Result<(), OutOfMemory>
        ensures ok { OnOk result (self.new ≡ pushed self.old region) }
        ensures err { OnErr result (self.new ≡ self.old) }
    {
        self.items.push(region)?;
        Ok(())
    }

    /// The regions, in their order.
    pub fn as_slice(&self) -> &[RegionTree]
        ensures { trees_of result.now ≡ self.now }
    {
        self.items.as_slice()
    }
}
