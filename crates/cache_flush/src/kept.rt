//! A load that was delivered.
ghost use Rattle.std.specs.Prelude.{◌≡◌, ◌&&◌, Contains, IsTrue, drop, not};
ghost use Rattle.std.specs.List.{list_any};
ghost use Rattle.olap_meaning.specs.Covering as covering;
ghost use Rattle.olap_meaning.specs.Rolled.{value_count};
ghost use Rattle.cache_flush.specs.Loads as loads;
ghost use Rattle.cache_flush.specs.Loads.{IsGone, kept_in};
ghost use Rattle.cache_flush.specs.Shuts.{is_live};

use crate::shut::Shut;
use olap_catalog::Catalog;
use olap_meaning::{Cell, Header, Region, Version};
use segment_body::Body;
use segment_header::{covers, names_column, same_columns};

/// A load that was delivered: its number, which is the position of its Start, its version, its body, which has the
/// header, and its place among the regions that were flushed: how many there were at its Start. Those after its place shut off
/// part of it.
#[derive(Drop)]
pub struct Kept {
    pub load: u64,
    pub version: Version,
    pub body: Body,
    pub place: u64,
}

impl Kept {
    /// Whether the load covers a cell with just the cell's columns, and no region that was flushed shuts it off. It takes no
    /// memory.
    pub fn serves(&self, shut: &Shut, cell: &Cell) -> bool
        ensures { result ≡ loads.serves (kept_in shut.now.regions self.now) cell.now }
    {
        self.just_covers(cell) && shut.is_live(self.place, cell)
    }

    /// Whether the load covers a cell, and no region that was flushed shuts it off. It takes no memory.
    pub fn is_live(&self, shut: &Shut, cell: &Cell) -> bool
        ensures { result
            ≡ (covering.header_covers self.now.body.header cell.now
            && is_live (kept_in shut.now.regions self.now).shut cell.now) }
    {
        covers(self.body.header(), cell) && shut.is_live(self.place, cell)
    }

    /// Whether the load covers a cell with more columns than the cell's, and no region that was flushed shuts it off. It takes no
    /// memory.
    pub fn is_candidate(&self, shut: &Shut, cell: &Cell) -> bool
        ensures { result ≡ loads.is_candidate (kept_in shut.now.regions self.now) cell.now }
    {
        let header = self.body.header();
        covers(header, cell) && has_more_columns(header, cell) && shut.is_live(self.place, cell)
    }

    /// How many of the flushes since the load's Start touch it. It takes no memory.
    pub fn flushes(&self, shut: &Shut) -> u64
        ensures { result
            ≡ covering.touching self.now.body.header (kept_in shut.now.regions self.now).shut }
    {
        shut.count(self.place, self.body.header())
    }

    /// Whether the regions that were flushed since the load's Start shut it off as a whole, as far as a short test tells, where this
    /// one is among them. It takes no memory.
    pub fn is_gone(&self, catalog: &Catalog, shut: &Shut, region: &Region) -> bool
        requires since { Contains (drop self.now.place shut.now.regions) region.now }
        ensures { IsTrue result → IsGone (value_count catalog.now)
            (kept_in shut.now.regions self.now) }
    {
        shut.shuts_off(catalog, self.place, self.body.header(), region)
    }

    /// Whether the load covers a cell with just the cell's columns, live or not. It takes no memory.
    pub fn just_covers(&self, cell: &Cell) -> bool
        ensures { result ≡ covering.just_covers self.now.body.header cell.now }
    {
        let header = self.body.header();
        covers(header, cell) && same_columns(header, cell)
    }
}

// Whether a header has a column that a cell does not name.
fn has_more_columns(header: &Header, cell: &Cell) -> bool
    ensures { result
        ≡ list_any (λ column. not (covering.names_column cell.now column.0)) header.now.columns }
{
    header
        .columns
        .as_slice()
        .iter()
        .any(|column| !names_column(cell, column.0))
}
