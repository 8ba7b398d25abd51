//! A load in flight.
ghost use Rattle.std.specs.Prelude.{◌≡◌, IsTrue};
ghost use Rattle.segment_header.specs.Headers.{is_header};

use cache_flush::Shut;
use olap_meaning::{Cell, Header, Version, Who};
use segment_header::{covers, same_columns};

/// A load in flight, with its place: how many regions had been flushed at its Start. Its header is well formed, so that a
/// cell's values are found in it by binary search.
#[derive(Drop)]
pub(crate) struct Flight {
    pub(crate) load: u64,
    pub(crate) who: Who,
    pub(crate) header: Header,
    pub(crate) version: Version,
    pub(crate) place: u64,
    ghost formed: { IsTrue (is_header header) },
}

impl Flight {
    ghost use Rattle.olap_meaning.specs.Covering as covering;
    ghost use Rattle.load_sharing.specs.Flights as flying;
    ghost use Rattle.load_sharing.specs.Flights.{flight_of};

    /// A load in flight. It takes no memory.
    pub(crate) fn new(load: u64, who: Who, header: Header, version: Version, place: u64) -> Flight
        requires { IsTrue (is_header header) }
        ensures { flight_of result
            ≡ record { load = load; who = who; header = header; version = version; place = place } }
    {
        Flight {
            load,
            who,
            header,
            version,
            place,
        }
    }

    /// Whether a cell awaits the load, where some regions were flushed. It takes no memory.
    pub(crate) fn is_awaited(&self, shut: &Shut, cell: &Cell) -> bool
        ensures { result ≡ flying.is_awaited shut.now.regions (flight_of self.now) cell.now }
    {
        self.just_covers(cell) && shut.is_live(self.place, cell)
    }

    // Whether the load covers a cell with just the cell's columns.
    fn just_covers(&self, cell: &Cell) -> bool
        ensures { result ≡ covering.just_covers self.now.header cell.now }
    {
        covers(&self.header, cell) && same_columns(&self.header, cell)
    }
}
