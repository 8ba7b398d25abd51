//! How many loads in flight have each mask.
ghost use Rattle.std.specs.Prelude.{ℕ, ◌≡◌, ◌<◌, ◌≤◌, ◌+◌, ◌-◌, ◌^◌, OnErr, OnOk, if◌then◌else◌, nat_eq, nat_lt};
ghost use Rattle.load_sharing.specs.Masks.{count_at};

use indexmap::IndexMap;
use olap_meaning::OutOfMemory;
use std::alloc::Global;
use std::marker::Model;

/// How many loads in flight have each mask. A mask that none has takes no place.
#[derive(Drop)]
pub(crate) struct Masks {
    by_mask: IndexMap<u64, usize>,
}

impl Model for Masks {
    ghost use Rattle.std.specs.Prelude.{ℕ, ◌<◌, IfSome, nat_eq};
    ghost use Rattle.indexmap.specs.IndexMap.{get, spare};
    ghost use Rattle.load_sharing.specs.Masks.{MasksOf};

    ghost Value = { MasksOf };

    ghost view = { λ a. record { counts = a.by_mask.entries; places = spare a.by_mask } };

    ghost invariant = { λ a. (mask : ℕ) → IfSome (get nat_eq a.by_mask mask) (λ count. 0 < count) };
}

impl Masks {
    /// No load. It takes no memory.
    pub(crate) fn new(alloc: Global) -> Masks
        ensures { (q : ℕ) → count_at result.counts q ≡ 0 }
    {
        Masks {
            by_mask: IndexMap::new(alloc),
        }
    }

    /// Whether a load has a mask. It takes no memory.
    pub(crate) fn has(&self, mask: u64) -> bool
        ensures { result ≡ nat_lt 0 (count_at self.now.counts mask) }
    {
        self.by_mask.contains_key(&mask)
    }

    /// Makes room for this many masks more.
    pub(crate) fn reserve(&mut self, n: usize) -> Result<(), OutOfMemory>
        ensures ok { OnOk result (n ≤ self.new.places) }
        ensures kept { self.old.places ≤ self.new.places }
        ensures counts { self.new.counts ≡ self.old.counts }
        ensures lacking { OnErr result (self.old.places < n) }
    {
        self.by_mask.reserve(n)?;
        Ok(())
    }

    /// Counts a load more with a mask. It takes no memory: the room is there.
    pub(crate) fn add(&mut self, mask: u64)
        requires place { 0 < self.old.places }
        requires fits { count_at self.old.counts mask + 1 < 2 ^ 64 }
        ensures counts { (q : ℕ) → count_at self.new.counts q
            ≡ (if nat_eq mask q then count_at self.old.counts q + 1 else count_at self.old.counts q) }
        ensures places { self.old.places ≤ self.new.places + 1 }
    {
        if let Some(count) = self.by_mask.get_mut(&mask) {
            *count += 1;
            return;
        }
        let added = self.by_mask.insert(mask, 1);
        prove!(added.is_ok());
    }

    /// Counts a load less with a mask. It takes no memory.
    pub(crate) fn remove(&mut self, mask: u64)
        ensures counts { (q : ℕ) → count_at self.new.counts q
            ≡ (if nat_eq mask q then count_at self.old.counts q - 1 else count_at self.old.counts q) }
        ensures places { self.old.places ≤ self.new.places }
    {
        if let Some(count) = self.by_mask.get_mut(&mask) {
            if *count > 1 {
                *count -= 1;
                return;
            }
        }
        self.by_mask.swap_remove(&mask);
    }
}
