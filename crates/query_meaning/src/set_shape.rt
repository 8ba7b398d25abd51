//! Sets by their shape.
ghost use Rattle.std.specs.Prelude.{◌≡◌, IfOk};
ghost use Rattle.query_meaning.specs.Tree as tree;
ghost use Rattle.query_meaning.specs.View.{set_of};

use crate::set_text::{Picks, SetShape, SetText, SetTexts};
use olap_meaning::{List, OutOfMemory, Text};
use std::alloc::Global;

impl SetText {
    /// The set of these sets in braces.
    pub fn braces(at: u32, sets: SetTexts) -> SetText
        ensures { result ≡ tree.Braces at sets }
    {
        SetText {
            shape: SetShape::Braces(at, sets),
        }
    }

    /// The Crossjoin of two sets.
    pub fn cross(
        alloc: Global,
        at: u32,
        first: SetText,
        second: SetText,
    ) -> Result<SetText, OutOfMemory>
        ensures { IfOk result (λ set. set ≡ tree.Cross at first second) }
    {
        let first = Box::new(alloc, first)?;
        let second = Box::new(alloc, second)?;
        Ok(SetText {
            shape: SetShape::Cross(at, first, second),
        })
    }

    /// The tuple of these paths.
    pub fn tuple(at: u32, paths: List<List<Text>>) -> SetText
        ensures { result ≡ tree.Tuple at paths }
    {
        SetText {
            shape: SetShape::Tuple(at, paths),
        }
    }

    /// What a path picks.
    pub fn picked(at: u32, path: List<Text>, picks: Picks) -> SetText
        ensures { result ≡ tree.Picked at path picks }
    {
        SetText {
            shape: SetShape::Picked(at, path, picks),
        }
    }

    /// What the set is.
    pub fn shape(&self) -> &SetShape
        ensures { set_of result.now ≡ self.now }
    {
        &self.shape
    }
}
