//! Evictions: after an answer the oldest kept loads go, while the kept loads have more groups than the budget.
ghost use Rattle.std.specs.Prelude.{ℕ, ◌≡◌, ◌<◌, ◌≤◌, ◌+◌, ◌++◌, ◌∷◌, [], IsTrue, List, length, map, sum_by};
ghost use Rattle.olap_meaning.specs.declared.cells.Header.{Header};
ghost use Rattle.olap_meaning.specs.Budget.{kept_groups, may_evict};
ghost use Rattle.olap_meaning.specs.History.{Evict};
ghost use Rattle.cache_flush.specs.Loads.{group_count};
ghost use Rattle.segment_index.specs.Index.{has_places};
ghost use Rattle.cache_manager.specs.Rollups.{AreKept};

use cache_flush::{CacheShelf, Shelf};
use history_core::{Entry, History};
use segment_index::SegmentIndex;

/// Evicts the oldest kept load. It takes no memory: the room is there.
fn evict_oldest(history: &mut History, shelf: &mut SegmentIndex)
    requires kept { AreKept history.old.setting.catalog history.old.entries shelf.old.loads }
    requires room { length shelf.old.loads ≤ history.old.spare }
    requires above { history.old.setting.budget < sum_by group_count shelf.old.loads }
    requires after { IsTrue (may_evict history.old.entries) }
    ensures setting { history.new.setting ≡ history.old.setting }
    ensures entry { (load : ℕ) × (history.new.entries ≡ history.old.entries ++ Evict load ∷ []) }
    ensures kept { AreKept history.new.setting.catalog history.new.entries shelf.new.loads }
    ensures fewer { length shelf.new.loads + 1 ≡ length shelf.old.loads }
    ensures flushed { shelf.new.flushed ≡ shelf.old.flushed }
    ensures spare { history.new.spare + 1 ≡ history.old.spare }
    ensures places { (headers : List Header)
        → has_places shelf.old headers → has_places shelf.new headers }
{
    history.steps_are_legal();
    shelf.numbers_differ();
    let load = shelf.oldest().unwrap();
    history.push(Entry::Evict { load });
    let _ = shelf.remove(load);
}

/// Evicts the oldest kept loads, one after another, while the kept loads have more groups than the budget. It takes no memory:
/// the room is there.
pub(crate) fn evict(history: &mut History, shelf: &mut SegmentIndex)
    requires kept { AreKept history.old.setting.catalog history.old.entries shelf.old.loads }
    requires room { length shelf.old.loads ≤ history.old.spare }
    requires after { IsTrue (may_evict history.old.entries) }
    ensures setting { history.new.setting ≡ history.old.setting }
    ensures evicted { (loads : List ℕ)
        × (history.new.entries ≡ history.old.entries ++ map Evict loads) }
    ensures kept { AreKept history.new.setting.catalog history.new.entries shelf.new.loads }
    ensures flushed { shelf.new.flushed ≡ shelf.old.flushed }
    ensures within { kept_groups history.new.setting.catalog history.new.entries
        ≤ history.new.setting.budget }
    ensures spare { history.new.spare + length shelf.old.loads
        ≡ history.old.spare + length shelf.new.loads }
    ensures places { (headers : List Header)
        → has_places shelf.old headers → has_places shelf.new headers }
{
    while shelf.groups() > u128::from(history.budget()) {
        evict_oldest(history, shelf);
    }
    history.steps_are_legal();
    shelf.numbers_differ();
}
