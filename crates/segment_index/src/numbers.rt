//! Numbers that rise.
ghost use Rattle.std.specs.Prelude.{◌≡◌, ◌==◌, ◌<◌, ◌≤◌, ◌+◌, ◌&&◌, ◌||◌, ◌++◌, ℕ, [], IfOk, IsTrue, OnOk, length, not};
ghost use Rattle.olap_meaning.specs.Covering.{among};
ghost use Rattle.olap_meaning.specs.Legal.{rise};
ghost use Rattle.segment_index.specs.Rising.{IsLeast};

use olap_meaning::OutOfMemory;
use std::alloc::Global;
use std::collections::VecDeque;
use std::marker::Model;

/// Numbers that rise. Little moves where the greatest is put in, and where the least is taken out.
#[derive(Drop)]
pub(crate) struct Numbers {
    rising: VecDeque<u64>,
}

impl Model for Numbers {
    ghost use Rattle.std.specs.Prelude.{◌-◌, IsTrue};
    ghost use Rattle.std.specs.VecDeque.{deque_capacity, deque_len};
    ghost use Rattle.olap_meaning.specs.Legal.{rise};
    ghost use Rattle.segment_index.specs.Rising.{RisingOf};

    ghost Value = { RisingOf };

    ghost view = { λ a. record { items = a.rising.items; places = deque_capacity a.rising - deque_len a.rising } };

    ghost invariant = { λ a. IsTrue (rise a.rising.items) };
}

impl Numbers {
    /// No number. It takes no memory.
    pub(crate) fn new(alloc: Global) -> Numbers
        ensures { result.items ≡ [] }
    {
        Numbers {
            rising: VecDeque::new(alloc),
        }
    }

    /// They rise. This costs nothing.
    pub(crate) fn are_rising(&self)
        ensures { IsTrue (rise self.now.items) }
    {
        let _ = &self.rising;
    }

    /// The least, None exactly where there is none. It takes no memory.
    pub(crate) fn least(&self) -> Option<u64>
        ensures { IsLeast self.now.items result }
    {
        self.rising.front().copied()
    }

    /// Whether there is none.
    pub(crate) fn is_empty(&self) -> bool
        ensures { result ≡ (length self.now.items == 0) }
    {
        self.rising.is_empty()
    }

    /// They themselves, in two parts. It takes no memory.
    pub(crate) fn parts(&self) -> (&[u64], &[u64])
        ensures { result.0.now ++ result.1.now ≡ self.now.items }
    {
        self.rising.as_slices()
    }

    /// A copy of them.
    pub(crate) fn copied(&self, alloc: Global) -> Result<Vec<u64>, OutOfMemory>
        ensures { IfOk result (λ copy. copy.items ≡ self.now.items) }
    {
        let (front, back) = self.rising.as_slices();
        let mut copy = Vec::with_capacity(alloc, self.rising.len())?;
        copy.extend_from_slice(front)?;
        copy.extend_from_slice(back)?;
        Ok(copy)
    }

    /// Makes room for this many more.
    pub(crate) fn reserve(&mut self, places: usize) -> Result<(), OutOfMemory>
        ensures ok { OnOk result (places ≤ self.new.places) }
        ensures items { self.new.items ≡ self.old.items }
        ensures places { self.old.places ≤ self.new.places }
    {
        self.rising.reserve(places)?;
        Ok(())
    }

    /// Puts a number in, where it is not there yet. It takes no memory: the room is there.
    pub(crate) fn insert(&mut self, number: u64)
        requires { 0 < self.old.places }
        ensures members { (other : ℕ) → among self.new.items other
            ≡ (number == other || among self.old.items other) }
        ensures places { self.old.places ≤ self.new.places + 1 }
    {
        if let Err(place) = self.rising.binary_search(&number) {
            let added = self.rising.insert(place, number);
            prove!(added.is_ok());
        }
    }

    /// Takes a number out, where it is there. It takes no memory.
    pub(crate) fn remove(&mut self, number: u64)
        ensures members { (other : ℕ) → among self.new.items other
            ≡ (not (number == other) && among self.old.items other) }
        ensures places { self.old.places ≤ self.new.places }
    {
        if let Ok(place) = self.rising.binary_search(&number) {
            let _ = self.rising.remove(place);
        }
    }
}
