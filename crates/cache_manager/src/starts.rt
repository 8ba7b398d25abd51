//! Starting loads.
ghost use Rattle.std.specs.Prelude.{◌≡◌, ◌≤◌, ◌+◌, ◌++◌, All, IsTrue, List, OnOk, length, map};
ghost use Rattle.std.specs.Vec.{vec_len, vec_capacity};
ghost use Rattle.olap_meaning.specs.declared.cells.Header.{Header};
ghost use Rattle.segment_header.specs.Headers.{is_header};
ghost use Rattle.history_core.specs.Entries.{entry_of};
ghost use Rattle.load_sharing.specs.Flights.{numbers_of};
ghost use Rattle.segment_index.specs.Index.{has_places};
ghost use Rattle.cache_manager.specs.Plans.{AreLegalSteps, AreNew, flight_for};

use crate::jobs::LoadJob;
use cache_flush::CacheShelf;
use history_core::{Entry, History};
use load_sharing::Flights;
use olap_meaning::{Header, OutOfMemory, Version, Who};
use segment_index::SegmentIndex;
use segment_load::SegmentLoad;

/// A load that is about to fly.
#[derive(Drop)]
pub(crate) struct Flying {
    pub(crate) load: u64,
    pub(crate) who: Who,
    pub(crate) header: Header,
    pub(crate) version: Version,
}

/// A load that a look is about to start.
#[derive(Drop)]
pub(crate) struct Planned {
    pub(crate) start: Entry,
    pub(crate) flight: Flying,
    pub(crate) job: SegmentLoad,
}

/// Gives back the places that were made on a shelf for some loads. It takes no memory.
fn release_places(shelf: &mut SegmentIndex, plans: &[Planned])
    requires places { (headers : List Header)
        × has_places shelf.old (headers ++ map (λ planned. planned.flight.header) plans.now) }
    ensures loads { shelf.new.loads ≡ shelf.old.loads }
    ensures flushed { shelf.new.flushed ≡ shelf.old.flushed }
    ensures kept { (headers : List Header)
        → has_places shelf.old (headers ++ map (λ planned. planned.flight.header) plans.now)
        → has_places shelf.new headers }
{
    for planned in plans {
        shelf.release(&planned.flight.header);
    }
}

/// Makes a place on a shelf for each of the loads, beside the places that are there. Where there is no memory for all, none is
/// made.
pub(crate) fn reserve_places(shelf: &mut SegmentIndex, plans: &[Planned]) -> Result<(), OutOfMemory>
    ensures loads { shelf.new.loads ≡ shelf.old.loads }
    ensures flushed { shelf.new.flushed ≡ shelf.old.flushed }
    ensures kept { (headers : List Header)
        → has_places shelf.old headers → has_places shelf.new headers }
    ensures ok { OnOk result ((headers : List Header) → has_places shelf.old headers
        → has_places shelf.new (headers ++ map (λ planned. planned.flight.header) plans.now)) }
{
    for made in 0..plans.len() {
        if let Err(error) = shelf.reserve(&plans[made].flight.header) {
            release_places(shelf, &plans[..made]);
            return Err(error);
        }
    }
    Ok(())
}

/// Starts loads, with their place among the regions that were flushed. It takes no memory: the room is there.
pub(crate) fn start_all(
    history: &mut History,
    flights: &mut Flights,
    jobs: &mut Vec<LoadJob>,
    plans: Vec<Planned>,
    place: u64,
)
    requires legal { AreLegalSteps history.old.setting history.old.entries
        (map (λ planned. entry_of planned.start) plans.items) }
    requires room { length plans.items ≤ history.old.spare }
    requires formed { All (λ planned. IsTrue (is_header planned.flight.header)) plans.items }
    requires flights_new { AreNew (numbers_of flights.old.flights)
        (map (λ planned. planned.flight.load) plans.items) }
    requires flights_room { length plans.items ≤ flights.old.places }
    requires jobs_room { vec_len jobs.old + length plans.items ≤ vec_capacity jobs.old }
    ensures setting { history.new.setting ≡ history.old.setting }
    ensures entries { history.new.entries ≡ history.old.entries
        ++ map (λ planned. entry_of planned.start) plans.items }
    ensures spare { history.new.spare + length plans.items ≡ history.old.spare }
    ensures flights { flights.new.flights ≡ flights.old.flights
        ++ map (λ planned. flight_for place planned.flight) plans.items }
    ensures jobs { jobs.new.items ≡ jobs.old.items ++ map (λ planned. planned.job) plans.items }
{
    for planned in plans {
        history.push(planned.start);
        let flight = planned.flight;
        flights.start(
            flight.load,
            flight.who,
            flight.header,
            flight.version,
            place,
        );
        jobs.push_reserved(LoadJob {
            segment: planned.job,
        });
    }
}
