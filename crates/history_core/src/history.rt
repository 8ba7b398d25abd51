//! Histories that are legal by their type.
ghost use Rattle.std.specs.Prelude.{◌≡◌, ◌≤◌, ◌<◌, ◌+◌, ◌++◌, ◌∷◌, ◌==◌, [], length, option_map, option_copied, OnOk, OnErr};
ghost use Rattle.olap_meaning.specs.History.{entry_at};
ghost use Rattle.olap_meaning.specs.Legal.{Legal, LegalStep};
ghost use Rattle.history_core.specs.Entries.{entry_of};
ghost use Rattle.history_core.specs.History.{setting_of};
ghost use Rattle.history_core.specs.Laws.{HasFreshAnswers, HasHeededFlushes, HasLastingFlushes, HasServedAnswers, HasRisingVersions, HasRisingCalls};

use crate::entry::Entry;
use olap_catalog::Catalog;
use olap_meaning::{OutOfMemory, laws};
use std::alloc::Global;
use std::marker::Model;
use std::sync::Arc;

/// What happened in a cache since it began, oldest first. Its entries are only read and added to, and each is a
/// legal step after those before it. A batch is shared with whoever appended it; no row is copied.
#[derive(Drop)]
pub struct History {
    catalog: Arc<Catalog>,
    row_limit: u32,
    budget: u64,
    entries: Vec<Entry>,
}

impl Model for History {
    ghost use Rattle.std.specs.Prelude.{map, ◌-◌};
    ghost use Rattle.std.specs.Vec.{vec_len, vec_capacity};
    ghost use Rattle.olap_meaning.specs.Legal.{Legal};
    ghost use Rattle.history_core.specs.Entries.{entry_of};
    ghost use Rattle.history_core.specs.History.{HistoryOf, setting_of};

    ghost Value = { HistoryOf };

    ghost view = { λ a. record { setting = setting_of a.catalog.value a.row_limit a.budget; entries = map entry_of a.entries.items; spare = vec_capacity a.entries - vec_len a.entries } };

    ghost invariant = { λ a. Legal (setting_of a.catalog.value a.row_limit a.budget) (map entry_of a.entries.items) };
}

impl History {
    /// The history of a cache that begins. It takes no memory.
    pub fn new(alloc: Global, catalog: Arc<Catalog>, row_limit: u32, budget: u64) -> History
        ensures { result
            ≡ record {
              setting = setting_of catalog.value row_limit budget;
              entries = [];
              spare = 0;
            } }
    {
        History {
            catalog,
            row_limit,
            budget,
            entries: Vec::new(alloc),
        }
    }

    /// Makes room for this many entries more, so that adding them takes no memory.
    pub fn reserve(&mut self, n: usize) -> Result<(), OutOfMemory>
        ensures ok { OnOk result (n ≤ self.new.spare) }
        ensures setting { self.new.setting ≡ self.old.setting }
        ensures entries { self.new.entries ≡ self.old.entries }
        ensures kept { self.old.spare ≤ self.new.spare }
        ensures err { OnErr result (self.new ≡ self.old) }
        ensures lacking { OnErr result (self.old.spare < n) }
    {
        self.entries.reserve(n)?;
        Ok(())
    }

    /// Adds an entry. It takes no memory: the room is there.
    pub fn push(&mut self, entry: Entry)
        requires room { 0 < self.old.spare }
        requires legal { LegalStep self.old.setting self.old.entries (entry_of entry) }
        ensures setting { self.new.setting ≡ self.old.setting }
        ensures entries { self.new.entries ≡ self.old.entries ++ entry_of entry ∷ [] }
        ensures spare { self.new.spare + 1 ≡ self.old.spare }
    {
        self.entries.push_reserved(entry);
    }

    /// How many entries there are.
    pub fn len(&self) -> u64
        ensures { result ≡ length self.now.entries }
    {
        self.entries.len() as u64
    }

    /// Whether there is no entry.
    pub fn is_empty(&self) -> bool
        ensures { result ≡ (length self.now.entries == 0) }
    {
        self.entries.is_empty()
    }

    /// The entry at a position; positions count from 1.
    pub fn entry(&self, i: u64) -> Option<&Entry>
        ensures { option_map entry_of (option_copied result) ≡ entry_at self.now.entries i }
    {
        let before = i.checked_sub(1)?;
        self.entries.get(before as usize)
    }

    /// The catalog, which never changes.
    pub fn catalog(&self) -> &Arc<Catalog>
        ensures { result.now.value ≡ self.now.setting.catalog }
    {
        &self.catalog
    }

    /// How many fact rows there may be, over all cubes.
    pub fn row_limit(&self) -> u32
        ensures { result ≡ self.now.setting.row_limit }
    {
        self.row_limit
    }

    /// The most groups that the kept loads have after an answer.
    pub fn budget(&self) -> u64
        ensures { result ≡ self.now.setting.budget }
    {
        self.budget
    }

    /// Each entry is a legal step after those before it. This costs nothing, as the laws below.
    pub fn steps_are_legal(&self)
        ensures { Legal self.now.setting self.now.entries }
    {
        let _ = &self.entries;
    }

    /// No answer is older than the version at the latest flush that covers the cell.
    pub fn answers_are_fresh(&self)
        ensures { HasFreshAnswers self.now }
    {
        self.steps_are_legal();
        laws::answers_are_fresh();
    }

    /// After a flush no answer to a cell that its region covers is older than the version at the flush.
    pub fn flushes_are_heeded(&self)
        ensures { HasHeededFlushes self.now }
    {
        self.steps_are_legal();
        laws::answers_are_fresh();
        laws::floor_is_greatest();
    }

    /// A load that was started before a flush serves no cell that its region covers, from the flush on.
    pub fn flushes_last(&self)
        ensures { HasLastingFlushes self.now }
    {
        let _ = &self.entries;
    }

    /// Each cell of an answer is worth the aggregate over one recorded version, from loads that are live for it.
    pub fn answers_are_served(&self)
        ensures { HasServedAnswers self.now }
    {
        self.steps_are_legal();
        laws::answers_are_served();
    }

    /// The versions of a cube only rise.
    pub fn versions_rise(&self)
        ensures { HasRisingVersions self.now }
    {
        laws::versions_rise();
    }

    /// The call numbers of a seat rise.
    pub fn calls_rise(&self)
        ensures { HasRisingCalls self.now }
    {
        self.steps_are_legal();
        laws::calls_rise();
    }
}
