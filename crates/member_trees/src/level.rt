//! The members of one level, as a tree of members is built.
ghost use Rattle.std.specs.Prelude.{◌≡◌, ◌<◌, [], length, OnOk, IfOk};
ghost use Rattle.std.specs.List.{position_or_len};
ghost use Rattle.indexmap.specs.IndexSet.{insert_key};
ghost use Rattle.member_trees.specs.Numbered.{pair_eq};

use indexmap::IndexSet;
use olap_meaning::schema::RECORD_LIMIT;
use olap_meaning::{OutOfMemory, ValueId};
use std::alloc::Global;
use std::marker::Model;

/// The members of a level, numbered by first appearance, each by its parent's number in the level above and its value.
#[derive(Drop)]
pub(crate) struct Level {
    members: IndexSet<(u32, u32)>,
}

impl Model for Level {
    ghost use Rattle.std.specs.Prelude.{List, ℕ};

    ghost Value = { List (ℕ × ℕ) };

    ghost view = { λ l. l.members.keys };
}

impl Level {
    /// No member. It takes no memory.
    pub(crate) fn new(alloc: Global) -> Level
        ensures { result ≡ [] }
    {
        Level {
            members: IndexSet::new(alloc),
        }
    }

    /// The number of a member, which is given one where it has none.
    pub(crate) fn number(&mut self, parent: u32, value: ValueId) -> Result<u32, OutOfMemory>
        requires { length self.old < RECORD_LIMIT }
        ensures members { OnOk result (self.new ≡ insert_key pair_eq self.old (parent, value)) }
        ensures number { IfOk result (λ n. n ≡ position_or_len (pair_eq (parent, value)) self.old) }
    {
        let (number, _) = self.members.insert_full((parent, value.0))?;
        Ok(number as u32)
    }

    /// The members, in the order of their numbers.
    pub(crate) fn members(&self) -> &[(u32, u32)]
        ensures { result.now ≡ self.now }
    {
        self.members.as_slice()
    }
}
