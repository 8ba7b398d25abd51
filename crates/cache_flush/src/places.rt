//! Positions under keys.
ghost use Rattle.std.specs.Prelude.{ℕ, ◌≡◌, [], OnOk, true};
ghost use Rattle.olap_meaning.specs.Covering.{among};
ghost use Rattle.cache_flush.specs.Anchors.{places_at};

use indexmap::IndexMap;
use olap_meaning::OutOfMemory;
use std::alloc::Global;
use std::marker::Model;

/// Positions under keys, under each in the order in which they were put there.
#[derive(Drop)]
pub(crate) struct Places {
    by_key: IndexMap<u64, Vec<usize>>,
}

impl Model for Places {
    ghost use Rattle.std.specs.Prelude.{List, ℕ, map};

    ghost Value = { List (ℕ × List ℕ) };

    ghost view = { λ a. map (λ e. (e.0, e.1.items)) a.by_key.entries };
}

impl Places {
    /// No positions. It takes no memory.
    pub(crate) fn new(alloc: Global) -> Places
        ensures { result ≡ [] }
    {
        Places {
            by_key: IndexMap::new(alloc),
        }
    }

    /// The positions under a key. It takes no memory.
    pub(crate) fn at(&self, key: u64) -> &[usize]
        ensures { result.now ≡ places_at self.now key }
    {
        match self.by_key.get(&key) {
            Some(positions) => positions.as_slice(),
            None => &[],
        }
    }

    /// Puts a position under a key. Those that are there stay, also where there is no memory.
    pub(crate) fn add(
        &mut self,
        alloc: Global,
        key: u64,
        position: usize,
    ) -> Result<(), OutOfMemory>
        ensures added { OnOk result (among (places_at self.new key) position ≡ true) }
        ensures kept { (q p : ℕ) → among (places_at self.old q) p ≡ true
            → among (places_at self.new q) p ≡ true }
    {
        if let Some(positions) = self.by_key.get_mut(&key) {
            positions.push(position)?;
            return Ok(());
        }
        let mut positions = Vec::new(alloc);
        positions.push(position)?;
        self.by_key.insert(key, positions)?;
        Ok(())
    }
}
