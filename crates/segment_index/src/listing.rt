//! The lists in which a look finds loads: by the mask of their columns, and by the keys of their cells.
ghost use Rattle.std.specs.Prelude.{◌≡◌, ◌≤◌, ℕ, [], OnErr, OnOk};
ghost use Rattle.olap_meaning.specs.Rolled.{value_count};
ghost use Rattle.segment_index.specs.Grouping.{IsAdded, IsReleased, IsRemoved, IsReserved, IsStill, loads_at, places_at};
ghost use Rattle.segment_index.specs.Index.{in_key, in_mask};
ghost use Rattle.segment_index.specs.Keys.{key_count, tally};

use crate::groups::Groups;
use crate::hints::Hints;
use crate::keys::{key_at, key_count};
use crate::masks::header_list_mask;
use olap_catalog::Catalog;
use olap_meaning::{Header, OutOfMemory};
use std::alloc::Global;

/// The numbers of loads, by the mask of a load's columns and by the keys of its cells.
#[derive(Drop)]
pub(crate) struct Lists {
    pub(crate) masks: Groups,
    pub(crate) cells: Groups,
    pub(crate) hints: Hints,
}

impl Lists {
    /// No load. It takes no memory.
    pub(crate) fn new(alloc: Global) -> Lists
        ensures masks { (q : ℕ) → loads_at result.masks q ≡ [] }
        ensures cells { (q : ℕ) → loads_at result.cells q ≡ [] }
    {
        Lists {
            masks: Groups::new(alloc),
            cells: Groups::new(alloc),
            hints: Hints::new(alloc),
        }
    }

    /// Makes a place for a load of a header. Where there is no memory, none is made.
    pub(crate) fn reserve(
        &mut self,
        alloc: Global,
        catalog: &Catalog,
        header: &Header,
    ) -> Result<(), OutOfMemory>
        ensures ok_masks { OnOk result
            (IsReserved (in_mask header.now) self.old.masks self.new.masks) }
        ensures ok_cells { OnOk result
            (IsReserved (in_key (value_count catalog.now) header.now) self.old.cells self.new.cells) }
        ensures err_masks { OnErr result (IsStill self.old.masks self.new.masks) }
        ensures err_cells { OnErr result (IsStill self.old.cells self.new.cells) }
    {
        let mask = header_list_mask(header);
        self.masks.reserve(alloc, mask)?;
        if reserve_cells(&mut self.cells, &mut self.hints, alloc, catalog, header).is_err() {
            self.masks.release(mask);
            return Err(OutOfMemory);
        }
        Ok(())
    }

    /// Gives back a place for a load of a header. It takes no memory.
    pub(crate) fn release(&mut self, catalog: &Catalog, header: &Header)
        requires masks { (q : ℕ) → in_mask header.now q ≤ places_at self.old.masks q }
        requires cells { (q : ℕ) → in_key (value_count catalog.now) header.now q ≤ places_at self.old.cells q }
        ensures masks { IsReleased (in_mask header.now) self.old.masks self.new.masks }
        ensures cells { IsReleased (in_key (value_count catalog.now) header.now) self.old.cells self.new.cells }
    {
        self.masks.release(header_list_mask(header));
        release_first(&mut self.cells, catalog, header, key_count(catalog, header));
        self.hints.release(header);
    }

    /// Puts a load in, where there is a place for its header. It takes no memory.
    pub(crate) fn add(&mut self, catalog: &Catalog, header: &Header, load: u64)
        requires masks { (q : ℕ) → in_mask header.now q ≤ places_at self.old.masks q }
        requires cells { (q : ℕ) → in_key (value_count catalog.now) header.now q ≤ places_at self.old.cells q }
        ensures masks { IsAdded (in_mask header.now) load self.old.masks self.new.masks }
        ensures cells { IsAdded (in_key (value_count catalog.now) header.now) load self.old.cells self.new.cells }
    {
        self.masks.add(header_list_mask(header), load);
        add_keys(&mut self.cells, catalog, header, load);
        self.hints.add(header, load);
    }

    /// Takes a load of a header out, where it stands there. It takes no memory.
    pub(crate) fn remove(&mut self, catalog: &Catalog, header: &Header, load: u64)
        ensures masks { IsRemoved (in_mask header.now) load self.old.masks self.new.masks }
        ensures cells { IsRemoved (in_key (value_count catalog.now) header.now) load self.old.cells self.new.cells }
    {
        self.masks.remove(header_list_mask(header), load);
        remove_keys(&mut self.cells, catalog, header, load);
        self.hints.remove(header, load);
    }
}

// Makes a place for a load of a header under its keys and in the hints.
fn reserve_cells(
    cells: &mut Groups,
    hints: &mut Hints,
    alloc: Global,
    catalog: &Catalog,
    header: &Header,
) -> Result<(), OutOfMemory>
    ensures ok { OnOk result (IsReserved (in_key (value_count catalog.now) header.now) cells.old cells.new) }
    ensures err { OnErr result (IsStill cells.old cells.new) }
{
    reserve_keys(cells, alloc, catalog, header)?;
    if hints.reserve(alloc, header).is_err() {
        release_first(cells, catalog, header, key_count(catalog, header));
        return Err(OutOfMemory);
    }
    Ok(())
}

// Makes a place under each key of a header.
fn reserve_keys(
    cells: &mut Groups,
    alloc: Global,
    catalog: &Catalog,
    header: &Header,
) -> Result<(), OutOfMemory>
    ensures ok { OnOk result (IsReserved (in_key (value_count catalog.now) header.now) cells.old cells.new) }
    ensures err { OnErr result (IsStill cells.old cells.new) }
{
    for number in 0..key_count(catalog, header) {
        if cells
            .reserve(alloc, key_at(catalog, header, number))
            .is_err()
        {
            release_first(cells, catalog, header, number);
            return Err(OutOfMemory);
        }
    }
    Ok(())
}

// Gives back a place under each of the first keys of a header.
fn release_first(cells: &mut Groups, catalog: &Catalog, header: &Header, count: usize)
    requires { (q : ℕ) → tally (value_count catalog.now) q header.now count ≤ places_at cells.old q }
    ensures { IsReleased (λ q. tally (value_count catalog.now) q header.now count) cells.old cells.new }
{
    for number in 0..count {
        cells.release(key_at(catalog, header, number));
    }
}

// Puts a load under each key of its header.
fn add_keys(cells: &mut Groups, catalog: &Catalog, header: &Header, load: u64)
    requires { (q : ℕ) → in_key (value_count catalog.now) header.now q ≤ places_at cells.old q }
    ensures { IsAdded (in_key (value_count catalog.now) header.now) load cells.old cells.new }
{
    for number in 0..key_count(catalog, header) {
        cells.add(key_at(catalog, header, number), load);
    }
}

// Takes a load out from under each key of its header.
fn remove_keys(cells: &mut Groups, catalog: &Catalog, header: &Header, load: u64)
    ensures { IsRemoved (in_key (value_count catalog.now) header.now) load cells.old cells.new }
{
    for number in 0..key_count(catalog, header) {
        cells.remove(key_at(catalog, header, number), load);
    }
}
