//! Sets, as they are written.
ghost use Rattle.std.specs.Prelude.{◌≡◌, OnErr, OnOk};
ghost use Rattle.query_meaning.specs.Tree.{none, pushed, sets_of};

use olap_meaning::{List, OutOfMemory, Text};
use std::alloc::Global;
use std::marker::Model;

/// What a path stands for in a set.
#[derive(Clone, Copy, Debug, PartialEq, Eq)]
pub enum Picks {
    /// The member itself.
    Itself,
    /// The members of the level or hierarchy, `.Members`.
    Members,
    /// The children of the member, `.Children`.
    Children,
}

/// What a set is. Its number is the byte at which it begins.
#[cycle(set)]
#[derive(Drop)]
pub enum SetShape {
    Braces(u32, SetTexts),
    Cross(u32, Box<SetText>, Box<SetText>),
    /// A tuple of these paths.
    Tuple(u32, List<List<Text>>),
    Picked(u32, List<Text>, Picks),
}

/// A set of a query, as it is written.
#[cycle(set)]
#[derive(Drop)]
pub struct SetText {
    pub(crate) shape: SetShape,
}

/// Some sets, in their order.
#[cycle(set)]
#[derive(Drop)]
pub struct SetTexts {
    items: Vec<SetText>,
}

impl Model for SetText {
    ghost use Rattle.query_meaning.specs.Tree as tree;
    ghost use Rattle.query_meaning.specs.Codes.{set_code};

    ghost Value = { tree.Set };

    ghost coded = { set_code };

    ghost use Rattle.query_meaning.specs.Tree.{set_size};
    ghost use Rattle.query_meaning.specs.View.{set_of};

    ghost view = { λ r. set_of r.shape };

    ghost size = { set_size };

    ghost use Rattle.std.proofs.Common.{arith};
    ghost use Rattle.query_meaning.specs.Falls.{shape_falls};

    ghost size_decreases = { λ a h. omega (arith, shape_falls a.shape) };
}

impl Model for SetTexts {
    ghost use Rattle.query_meaning.specs.Tree as tree;
    ghost use Rattle.query_meaning.specs.Codes.{sets_code};

    ghost Value = { tree.Sets };

    ghost coded = { sets_code };

    ghost use Rattle.query_meaning.specs.Tree.{sets_of, sets_size};

    ghost view = { λ r. sets_of r.items.items };

    ghost size = { sets_size };

    ghost use Rattle.std.proofs.Common.{arith};
    ghost use Rattle.query_meaning.specs.Sizes.{most_sets};

    ghost size_decreases = { λ a h. omega (arith, most_sets a.items.items) };
}

impl SetTexts {
    pub fn new(alloc: Global) -> SetTexts
        ensures { result ≡ none }
    {
        SetTexts {
            items: Vec::new(alloc),
        }
    }

    /// Adds a set at the end.
    pub fn push(&mut self, set: SetText) -> Result<(), OutOfMemory>
        ensures ok { OnOk result (self.new ≡ pushed self.old set) }
        ensures err { OnErr result (self.new ≡ self.old) }
    {
        self.items.push(set)?;
        Ok(())
    }

    /// The sets, in their order.
    pub fn as_slice(&self) -> &[SetText]
        ensures { sets_of result.now ≡ self.now }
    {
        self.items.as_slice()
    }
}
