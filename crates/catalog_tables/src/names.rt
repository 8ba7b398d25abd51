//! Names numbered from 0 by first appearance.
ghost use Rattle.std.specs.Prelude.{◌≡◌, ◌<◌, [], length, position, slice_get, bytes_eq, IfOk, OnErr, OnOk, Some, string_bytes};
ghost use Rattle.std.specs.List.{list_any};
ghost use Rattle.catalog_tables.specs.Tables.{seen_with};

use indexmap::IndexSet;
use olap_meaning::OutOfMemory;
use std::alloc::Global;
use std::marker::Model;

/// Names, each once, by first appearance. A name's number is its place, and is found by hash.
#[derive(Drop)]
pub(crate) struct Names {
    set: IndexSet<String>,
}

impl Model for Names {
    ghost use Rattle.std.specs.Prelude.{List, ℕ, map, string_bytes};

    ghost Value = { List (List ℕ) };

    ghost view = { λ n. map string_bytes n.set.keys };
}

impl Names {
    /// No names. It takes no memory.
    pub(crate) fn new(alloc: Global) -> Names
        ensures { result ≡ [] }
    {
        Names {
            set: IndexSet::new(alloc),
        }
    }

    /// How many names there are.
    pub(crate) fn len(&self) -> usize
        ensures { result ≡ length self.now }
    {
        self.set.len()
    }

    /// The number of a name, None where it has none. It takes no memory.
    pub(crate) fn find(&self, name: &str) -> Option<usize>
        ensures { result ≡ position (bytes_eq name.now) self.now }
    {
        self.set.get_index_of(name)
    }

    /// Whether a name has a number. It takes no memory.
    pub(crate) fn contains(&self, name: &str) -> bool
        ensures { result ≡ list_any (bytes_eq name.now) self.now }
    {
        self.set.contains(name)
    }

    /// The name of a number. It takes no memory.
    pub(crate) fn name(&self, i: usize) -> &str
        requires { i < length self.now }
        ensures { Some result.now ≡ slice_get self.now i }
    {
        self.set.get_index(i).unwrap().as_str()
    }

    /// The number of a name, which is given one where it has none.
    pub(crate) fn number(&mut self, alloc: Global, name: &str) -> Result<usize, OutOfMemory>
        ensures seen { OnOk result (self.new ≡ seen_with self.old name.now) }
        ensures number { IfOk result (λ i. position (bytes_eq name.now) self.new ≡ Some i) }
        ensures err { OnErr result (self.new ≡ self.old) }
    {
        if let Some(i) = self.set.get_index_of(name) {
            return Ok(i);
        }
        let key = String::from_str(alloc, name)?;
        let (i, _) = self.set.insert_full(key)?;
        Ok(i)
    }

    /// Adds a name that has no number yet.
    pub(crate) fn add(&mut self, name: String) -> Result<(), OutOfMemory>
        ensures ok { OnOk result (self.new ≡ seen_with self.old (string_bytes name)) }
        ensures err { OnErr result (self.new ≡ self.old) }
    {
        self.set.insert_full(name)?;
        Ok(())
    }
}
