//! The numbers of loads under each key, with the places that were made there and are not used yet.
ghost use Rattle.std.specs.Prelude.{◌≡◌, ◌<◌, ◌≤◌, ◌+◌, ◌++◌, [], ℕ, map, nat_eq, nat_lt, if◌then◌else◌, None, OnOk, OnErr, IfOk, false};
ghost use Rattle.std.specs.Map.{lookup};
ghost use Rattle.indexmap.specs.IndexMap.{swap_remove_entry};
ghost use Rattle.segment_index.specs.Grouping as grouping;
ghost use Rattle.segment_index.specs.Grouping.{IsAdded, IsReleased, IsRemoved, IsReserved, IsStill, has_spent, loads_at, loads_above, loads_where_above, one, places_at};

use crate::masks::ALL_BITS;
use crate::numbers::Numbers;
use indexmap::IndexMap;
use olap_meaning::OutOfMemory;
use std::alloc::Global;
use std::marker::Model;

// The numbers of the loads under one key, and how many more there is a place for.
#[derive(Drop)]
struct Group {
    loads: Numbers,
    places: usize,
}

/// The numbers of loads under each key, rising, with the places that were made and are not used yet.
#[derive(Drop)]
pub(crate) struct Groups {
    by_key: IndexMap<u64, Group>,
}

impl Model for Groups {
    ghost use Rattle.std.specs.Prelude.{List, ℕ, map, ◌≤◌};
    ghost use Rattle.std.specs.List.{AllByRecursion};

    ghost Value = { List (ℕ × (List ℕ × ℕ)) };

    ghost view = { λ a. map (λ e. (e.0, (e.1.loads.items, e.1.places))) a.by_key.entries };

    ghost invariant = { λ a. AllByRecursion (λ e. e.1.places ≤ e.1.loads.places) a.by_key.entries };
}

/// One more.
pub(crate) fn one_more(count: usize) -> Result<usize, OutOfMemory>
    ensures { IfOk result (λ more. more ≡ count + 1) }
{
    count.checked_add(1).ok_or(OutOfMemory)
}

// Makes one place more in a group.
fn reserve_one(group: &mut Group) -> Result<(), OutOfMemory>
    requires { group.old.places ≤ group.old.loads.places }
    ensures loads { group.new.loads.items ≡ group.old.loads.items }
    ensures ok { OnOk result (group.new.places ≡ group.old.places + 1) }
    ensures err { OnErr result (group.new.places ≡ group.old.places) }
    ensures room { group.new.places ≤ group.new.loads.places }
{
    let places = one_more(group.places)?;
    group.loads.reserve(places)?;
    group.places = places;
    Ok(())
}

impl Groups {
    /// No loads. It takes no memory.
    pub(crate) fn new(alloc: Global) -> Groups
        ensures loads { (q : ℕ) → loads_at result q ≡ [] }
        ensures places { (q : ℕ) → places_at result q ≡ 0 }
    {
        Groups {
            by_key: IndexMap::new(alloc),
        }
    }

    /// The loads under a key, in two parts. It takes no memory.
    pub(crate) fn at(&self, key: u64) -> (&[u64], &[u64])
        ensures { result.0.now ++ result.1.now ≡ loads_at self.now key }
    {
        match self.by_key.get(&key) {
            Some(group) => group.loads.parts(),
            None => (&[], &[]),
        }
    }

    /// Whether there is a place under a key. It takes no memory.
    pub(crate) fn has_place(&self, key: u64) -> bool
        ensures { result ≡ nat_lt 0 (places_at self.now key) }
    {
        match self.by_key.get(&key) {
            Some(group) => group.places > 0,
            None => false,
        }
    }

    /// How many keys there are under which loads or places stand.
    pub(crate) fn len(&self) -> usize {
        self.by_key.len()
    }

    /// The key at a position, and the loads under it, in two parts. It takes no memory.
    pub(crate) fn get(&self, position: usize) -> Option<(u64, &[u64], &[u64])> {
        let (key, group) = self.by_key.get_index(position)?;
        let (front, back) = group.loads.parts();
        Some((*key, front, back))
    }

    /// Makes one place more under a key.
    pub(crate) fn reserve(&mut self, alloc: Global, key: u64) -> Result<(), OutOfMemory>
        ensures ok { OnOk result (IsReserved (one key) self.old self.new) }
        ensures err { OnErr result (IsStill self.old self.new) }
    {
        if let Some(group) = self.by_key.get_mut(&key) {
            return reserve_one(group);
        }
        let group = one_place(alloc)?;
        self.by_key.insert(key, group)?;
        Ok(())
    }

    /// Puts a load under a key where there is a place. It takes no memory.
    pub(crate) fn add(&mut self, key: u64, load: u64)
        requires { 0 < places_at self.old key }
        ensures { IsAdded (one key) load self.old self.new }
    {
        let Some(group) = self.by_key.get_mut(&key) else {
            return;
        };
        group.loads.insert(load);
        group.places -= 1;
    }

    /// Takes a load out from under a key, if it stands there. The key goes where nothing is left under it. It takes no memory.
    pub(crate) fn remove(&mut self, key: u64, load: u64)
        ensures removed { IsRemoved (one key) load self.old self.new }
        ensures unspent { has_spent self.new key ≡ false }
    {
        self.take_load(key, load);
        self.tidy(key);
    }

    /// Gives back a place under a key. The key goes where nothing is left under it. It takes no memory.
    pub(crate) fn release(&mut self, key: u64)
        requires { 0 < places_at self.old key }
        ensures released { IsReleased (one key) self.old self.new }
        ensures unspent { has_spent self.new key ≡ false }
    {
        self.take_place(key);
        self.tidy(key);
    }

    // Takes a load out from under a key, if it stands there.
    fn take_load(&mut self, key: u64, load: u64)
        ensures { IsRemoved (one key) load self.old self.new }
    {
        let Some(group) = self.by_key.get_mut(&key) else {
            return;
        };
        group.loads.remove(load);
    }

    // Lowers the places under a key.
    fn take_place(&mut self, key: u64)
        requires { 0 < places_at self.old key }
        ensures { IsReleased (one key) self.old self.new }
    {
        let Some(group) = self.by_key.get_mut(&key) else {
            return;
        };
        group.places -= 1;
    }

    // Whether neither a load nor a place is left under a key that is still there.
    fn is_spent(&self, key: u64) -> bool
        ensures { result ≡ has_spent self.now key }
    {
        match self.by_key.get(&key) {
            Some(group) => group.loads.is_empty() && group.places == 0,
            None => false,
        }
    }

    // Lets a key go under which neither a load nor a place is left.
    fn tidy(&mut self, key: u64)
        ensures still { IsStill self.old self.new }
        ensures unspent { has_spent self.new key ≡ false }
    {
        if self.is_spent(key) {
            forget(&mut self.by_key, key);
        }
    }

    /// The loads under each key, as a mask, that has all bits of this one and others besides; under this mask itself only where it
    /// is that of all bits.
    pub(crate) fn above(&self, alloc: Global, mask: u64) -> Result<Vec<u64>, OutOfMemory>
        ensures { IfOk result (λ found. found.items ≡ loads_above self.now mask) }
    {
        let mut found = Vec::new(alloc);
        add_above(&self.by_key, mask, &mut found)?;
        Ok(found)
    }
}

// A group without loads, with a place for one.
fn one_place(alloc: Global) -> Result<Group, OutOfMemory>
    ensures loads { IfOk result (λ group. group.loads.items ≡ []) }
    ensures places { IfOk result (λ group. group.places ≡ 1) }
    ensures room { IfOk result (λ group. group.places ≤ group.loads.places) }
{
    let mut group = Group {
        loads: Numbers::new(alloc),
        places: 0,
    };
    reserve_one(&mut group)?;
    Ok(group)
}

// Takes what is under a key out of a map.
fn forget(by_key: &mut IndexMap<u64, Group>, key: u64)
    ensures entries { by_key.new.entries
        ≡ swap_remove_entry (nat_eq key) by_key.old.entries }
    ensures others { (q : ℕ) → lookup (nat_eq q) by_key.new.entries
        ≡ (if nat_eq key q then None else lookup (nat_eq q) by_key.old.entries) }
{
    by_key.swap_remove(&key);
}

// Whether one mask stands above another: it has all bits of the other and others besides, or both are that of all bits.
fn is_above(mask: u64, under: u64) -> bool
    ensures { result ≡ grouping.is_above mask under }
{
    under & mask == mask && (under != mask || mask == ALL_BITS)
}

// Adds the loads under a mask, where it stands above another.
fn add_where_above(
    under: u64,
    group: &Group,
    mask: u64,
    found: &mut Vec<u64>,
) -> Result<(), OutOfMemory>
    ensures { OnOk result (found.new.items
        ≡ found.old.items
        ++ loads_where_above mask (under, (group.now.loads.items, group.now.places))) }
{
    if is_above(mask, under) {
        let (front, back) = group.loads.parts();
        found.extend_from_slice(front)?;
        found.extend_from_slice(back)?;
    }
    Ok(())
}

// Adds the loads under each mask that stands above this one.
fn add_above(
    groups: &IndexMap<u64, Group>,
    mask: u64,
    found: &mut Vec<u64>,
) -> Result<(), OutOfMemory>
    ensures { OnOk result (found.new.items
        ≡ found.old.items
        ++ loads_above (map (λ e. (e.0, (e.1.loads.items, e.1.places))) groups.now.entries) mask) }
{
    for i in 0..groups.len() {
        let (under, group) = groups.get_index(i).unwrap();
        add_where_above(*under, group, mask, found)?;
    }
    Ok(())
}
