//! The loads in flight.
ghost use Rattle.std.specs.Prelude.{◌≡◌, ◌==◌, ◌<◌, ◌≤◌, ◌+◌, ◌++◌, ◌∷◌, [], All, IfOk, IsFalse, IsTrue, OnErr, OnOk, Some, filter, length, map, not, option_copied, option_map, slice_get};
ghost use Rattle.std.specs.List.{find, list_any, position};
ghost use Rattle.olap_meaning.specs.Covering.{among};
ghost use Rattle.segment_header.specs.Headers.{is_header};
ghost use Rattle.load_sharing.specs.Flights as flying;
ghost use Rattle.load_sharing.specs.Flights.{IsLeastAwaited, flight_at, flight_of, is_less, numbers_of};
ghost use Rattle.cache_flush.specs.Loads.{are_different};

use crate::flight::Flight;
use crate::masks::Masks;
use cache_flush::Shut;
use olap_meaning::{Cell, Header, OutOfMemory, Version, Who};
use segment_header::{cell_mask, header_mask};
use std::alloc::Global;
use std::marker::Model;

/// The loads in flight, in the order in which they were started. A flush changes nothing here: each load knows its place
/// among the regions that were flushed, and those after it shut off part of the load. Room is made by `reserve`. The room that
/// was made and is not used yet is counted: what the containers have beyond it is not promised to anybody.
#[derive(Drop)]
pub struct Flights {
    flights: Vec<Flight>,
    masks: Masks,
    places: usize,
}

impl Model for Flights {
    ghost use Rattle.std.specs.Prelude.{◌+◌, ◌≤◌, IsTrue, map};
    ghost use Rattle.std.specs.Vec.{vec_capacity, vec_len};
    ghost use Rattle.cache_flush.specs.Loads.{are_different};
    ghost use Rattle.load_sharing.specs.Flights.{FlightsOf, flight_of, numbers_of};
    ghost use Rattle.load_sharing.specs.Counted.{AreMaskCounts};

    ghost Value = { FlightsOf };

    ghost view = { λ a. record { flights = map flight_of a.flights.items; places = a.places } };

    ghost invariant = { λ a. IsTrue (are_different (numbers_of (map flight_of a.flights.items)))
        × AreMaskCounts a.masks.counts (map flight_of a.flights.items)
        × (vec_len a.flights + a.places ≤ vec_capacity a.flights)
        × (a.places ≤ a.masks.places) };
}

// One of some loads in flight is of a seat.
fn some_flies_for(flights: &[Flight], seat: u32) -> bool
    ensures { result ≡ list_any (λ flight. flight.who.seat == seat) flights.now }
{
    flights.iter().any(|flight| flight.who.seat == seat)
}

impl Flights {
    /// No load in flight. It takes no memory.
    pub fn new(alloc: Global) -> Flights
        ensures { result ≡ record { flights = []; places = 0 } }
    {
        Flights {
            flights: Vec::new(alloc),
            masks: Masks::new(alloc),
            places: 0,
        }
    }

    /// How many loads are in flight.
    pub fn len(&self) -> usize
        ensures { result ≡ length self.now.flights }
    {
        self.flights.len()
    }

    /// Whether no load is in flight.
    pub fn is_empty(&self) -> bool
        ensures { result ≡ (length self.now.flights == 0) }
    {
        self.flights.is_empty()
    }

    /// No number stands twice. This costs nothing.
    pub fn numbers_differ(&self)
        ensures { IsTrue (are_different (numbers_of self.now.flights)) }
    {
        let _ = &self.flights;
    }

    /// Whose a load in flight is, None exactly where the load is not in flight. It takes no memory.
    #[tactic(auto, using(crate::proofs::ListFacts::find_map))]
    pub fn who(&self, load: u64) -> Option<Who>
        ensures { result ≡ option_map (λ flight. flight.who) (flight_at self.now.flights load) }
    {
        let flight = find_flight(self.flights.as_slice(), load)?;
        Some(flight.who)
    }

    /// Whether a load of a seat is in flight. It takes no memory.
    pub fn flies_for(&self, seat: u32) -> bool
        ensures { result ≡ list_any (λ flight. flight.who.seat == seat) self.now.flights }
    {
        some_flies_for(self.flights.as_slice(), seat)
    }

    /// The version of a load in flight, None exactly where the load is not in flight. It takes no memory.
    #[tactic(auto, using(crate::proofs::ListFacts::find_map))]
    pub fn version(&self, load: u64) -> Option<Version>
        ensures { result ≡ option_map (λ flight. flight.version) (flight_at self.now.flights load) }
    {
        let flight = find_flight(self.flights.as_slice(), load)?;
        Some(flight.version)
    }

    /// The header of a load in flight, None exactly where the load is not in flight. It takes no memory.
    #[tactic(auto, using(crate::proofs::ListFacts::find_map))]
    pub fn header(&self, load: u64) -> Option<&Header>
        ensures { option_copied result
            ≡ option_map (λ flight. flight.header) (flight_at self.now.flights load) }
    {
        let flight = find_flight(self.flights.as_slice(), load)?;
        Some(&flight.header)
    }

    /// The least load in flight that a cell awaits, where some regions were flushed: one that covers the cell with just its
    /// columns, and that no region after its place shuts off for it; None exactly where there is none. It takes no memory. A cell
    /// whose columns no load in flight has costs one look-up.
    pub fn flying(&self, shut: &Shut, cell: &Cell) -> Option<u64>
        ensures { IsLeastAwaited shut.now.regions self.now.flights cell.now result }
    {
        if !self.masks.has(cell_mask(cell)) {
            return None;
        }
        least_awaited(self.flights.as_slice(), shut, cell)
    }

    /// Makes room for this many loads more, so that starting them takes no memory.
    pub fn reserve(&mut self, n: usize) -> Result<(), OutOfMemory>
        ensures ok { OnOk result (n ≤ self.new.places) }
        ensures flights { self.new.flights ≡ self.old.flights }
        ensures kept { self.old.places ≤ self.new.places }
        ensures err { OnErr result (self.new ≡ self.old) }
        ensures lacking { OnErr result (self.old.places < n) }
    {
        self.masks.reserve(n)?;
        self.flights.reserve(n)?;
        self.places = self.places.max(n);
        Ok(())
    }

    /// Adds a load, with its place among the regions that were flushed. It takes no memory: the room is there.
    pub fn start(&mut self, load: u64, who: Who, header: Header, version: Version, place: u64)
        requires place { 0 < self.old.places }
        requires another { IsFalse (among (numbers_of self.old.flights) load) }
        requires header { IsTrue (is_header header) }
        ensures flights { self.new.flights
            ≡ self.old.flights
            ++ record {
              load = load;
              who = who;
              header = header;
              version = version;
              place = place;
            } ∷ [] }
        ensures places { self.new.places + 1 ≡ self.old.places }
    {
        self.masks.add(header_mask(&header));
        self.flights
            .push_reserved(Flight::new(load, who, header, version, place));
        self.places -= 1;
    }

    /// Takes a load out, and tells its place among the regions that were flushed; the others keep their order. It takes no
    /// memory.
    pub fn end(&mut self, load: u64) -> u64
        requires { IsTrue (among (numbers_of self.old.flights) load) }
        ensures flights { self.new.flights
            ≡ filter (λ flight. not (flight.load == load)) self.old.flights }
        ensures place { option_map (λ flight. flight.place) (flight_at self.old.flights load)
            ≡ Some result }
        ensures places { self.old.places ≤ self.new.places }
    {
        let place = place_of(self.flights.as_slice(), load);
        let flight = self.flights.remove(place);
        self.masks.remove(header_mask(&flight.header));
        flight.place
    }
}

// The load in flight of a number.
fn find_flight(flights: &[Flight], load: u64) -> Option<&Flight>
    ensures { option_copied result ≡ find (λ flight. flight.load == load) flights.now }
{
    flights.iter().find(|flight| flight.load == load)
}

// The place of a load in flight, if it is there.
fn position_of(flights: &[Flight], load: u64) -> Option<usize>
    ensures { result ≡ position (λ flight. flight.load == load) flights.now }
{
    flights.iter().position(|flight| flight.load == load)
}

// The place of a load in flight.
fn place_of(flights: &[Flight], load: u64) -> usize
    requires { IsTrue (among (map (λ flight. flight.load) flights.now) load) }
    ensures { option_map (λ flight. flight.load) (slice_get flights.now result) ≡ Some load }
{
    position_of(flights, load).unwrap()
}

// Whether a load has a lesser number than another, if there is another.
fn is_less(load: u64, least: Option<u64>) -> bool
    ensures { result ≡ is_less load least }
{
    match least {
        Some(other) => load < other,
        None => true,
    }
}

// The least of the loads in flight that a cell awaits.
fn least_awaited(flights: &[Flight], shut: &Shut, cell: &Cell) -> Option<u64>
    ensures { IsLeastAwaited shut.now.regions (map flight_of flights.now) cell.now result }
{
    let mut least = None;
    for flight in flights {
        if is_less(flight.load, least) && flight.is_awaited(shut, cell) {
            least = Some(flight.load);
        }
    }
    least
}
