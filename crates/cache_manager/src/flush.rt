//! Flushing: first all the room is made, and then the flush is done, which takes no memory.
ghost use Rattle.std.specs.Prelude.{◌≡◌, ◌≤◌, ◌<◌, ◌+◌, ◌++◌, ◌∷◌, [], List, OnOk, length, map};
ghost use Rattle.olap_meaning.specs.declared.cells.Header.{Header};
ghost use Rattle.olap_meaning.specs.History.{Flush};
ghost use Rattle.olap_meaning.specs.Legal.{LegalStep};
ghost use Rattle.cache_flush.specs.Loads as of_loads;
ghost use Rattle.segment_index.specs.Index.{has_places, is_ready};
ghost use Rattle.cache_manager.specs.Kept.{closing};

use crate::manager::room_for;
use cache_flush::CacheShelf;
use history_core::{Entry, History};
use load_sharing::Flights;
use olap_meaning::{OutOfMemory, Region, Who};
use segment_index::SegmentIndex;
use std::sync::Arc;

/// Makes all the room that a flush takes: its entry, and that of its region among those that were flushed. The history and
/// the loads stay as they are.
pub(crate) fn make_room(
    history: &mut History,
    shelf: &mut SegmentIndex,
    flights: &Flights,
    region: &Arc<Region>,
) -> Result<(), OutOfMemory>
    ensures setting { history.new.setting ≡ history.old.setting }
    ensures entries { history.new.entries ≡ history.old.entries }
    ensures spare { history.old.spare ≤ history.new.spare }
    ensures loads { shelf.new.loads ≡ shelf.old.loads }
    ensures flushed { shelf.new.flushed ≡ shelf.old.flushed }
    ensures places { (headers : List Header)
        → has_places shelf.old headers → has_places shelf.new headers }
    ensures entry_room { OnOk result
        (closing flights.now.flights shelf.old.loads + 1 ≤ history.new.spare) }
    ensures ready { OnOk result (is_ready shelf.new region.now.value) }
{
    history.reserve(room_for(flights, shelf, 1)?)?;
    shelf.reserve_shut(region)
}

/// Shuts off the cells of a region in each load, and records the flush. It takes no memory: the room is there.
pub(crate) fn shut_off(
    history: &mut History,
    shelf: &mut SegmentIndex,
    who: Who,
    region: Arc<Region>,
)
    requires legal { LegalStep history.old.setting history.old.entries
        (Flush who region.value) }
    requires entry_room { 0 < history.old.spare }
    requires ready { is_ready shelf.old region.value }
    ensures setting { history.new.setting ≡ history.old.setting }
    ensures entries { history.new.entries ≡ history.old.entries
        ++ Flush who region.value ∷ [] }
    ensures spare { history.new.spare + 1 ≡ history.old.spare }
    ensures loads { shelf.new.loads ≡ map (of_loads.shut_off region.value) shelf.old.loads }
    ensures flushed { shelf.new.flushed ≡ shelf.old.flushed ++ region.value ∷ [] }
    ensures places { (headers : List Header)
        → has_places shelf.old headers → has_places shelf.new headers }
{
    shelf.shut(&region);
    history.push(Entry::Flush { who, region });
}
