//! Aggregate tables of a cache: each is built from a version of its cube, or was checked against one, and is installed for the
//! loads that are started later.
ghost use Rattle.std.specs.Prelude.{◌≡◌, ◌<◌, ◌≤◌, ◌+◌, ◌++◌, ◌∷◌, [], IfOk, IsTrue, OnErr, OnOk, length};
ghost use Rattle.olap_meaning.specs.History.{Agg};
ghost use Rattle.olap_meaning.specs.Legal.{is_next_call};
ghost use Rattle.load_costs.specs.Costs.{version_rows};
ghost use Rattle.installed_tables.specs.Installed.{groups_built, present_rows, present_version};
ghost use Rattle.cache_manager.specs.Tables.{IsOwnTable};

use crate::manager::{Manager, room_for};
use agg_tables::{AggTable, build, cube_of};
use fact_versions::Steps;
use history_core::{AggBuilt, Entry};
use olap_meaning::{OutOfMemory, Version, Who};
use std::sync::ledger::Ledger;

impl Manager {
    /// Installs an aggregate table, for the loads that are started from now on: it takes the place of an earlier one of its
    /// declaration. It answers the position of its entry.
    pub fn install(&mut self, who: Who, table: AggTable) -> Result<u64, OutOfMemory>
        requires call { IsTrue (is_next_call self.old.entries who) }
        requires own { IsOwnTable self.old table }
        ensures setting { self.new.setting ≡ self.old.setting }
        ensures entry { OnOk result
            (self.new.entries ≡ self.old.entries ++ Agg who table.table table.version ∷ []) }
        ensures position { IfOk result (λ position. position ≡ length self.new.entries) }
        ensures unchanged { OnErr result (self.new ≡ self.old) }
    {
        self.history.steps_are_legal();
        self.history
            .reserve(room_for(&self.flights, &self.shelf, 1)?)?;
        let entry = Entry::Agg {
            who,
            table: table.table(),
            version: table.version(),
        };
        self.installed.install(table)?;
        self.history.push(entry);
        Ok(self.history.len())
    }

    /// Builds an aggregate table of the schema from the present version of its cube, each of whose rows is handed out once,
    /// and installs it.
    pub fn build_agg<L: Ledger>(
        &mut self,
        who: Who,
        table: u32,
        steps: &mut Steps<L>,
    ) -> Result<AggBuilt, OutOfMemory>
        requires call { IsTrue (is_next_call self.old.entries who) }
        requires declared { table < length self.old.setting.catalog.schema.aggregates }
        ensures setting { self.new.setting ≡ self.old.setting }
        ensures entry { IfOk result
            (λ built. self.new.entries ≡ self.old.entries ++ Agg who table built.version ∷ []) }
        ensures position { IfOk result (λ built. built.position ≡ length self.new.entries) }
        ensures version { IfOk result
            (λ built. built.version
            ≡ present_version self.old.setting.catalog self.old.entries table) }
        ensures groups { IfOk result
            (λ built. built.groups ≡ groups_built self.new.setting.catalog self.new.entries table) }
        ensures unchanged { OnErr result (self.new ≡ self.old) }
        ensures cost { OnOk result
            (steps.new ≡ steps.old + present_rows self.old.setting.catalog self.old.entries table) }
        ensures at_least { steps.old ≤ steps.new }
        ensures at_most { steps.new
            ≤ steps.old + present_rows self.old.setting.catalog self.old.entries table }
    {
        self.steps_are_legal();
        let version = self.table_version(table);
        let made = self.build(table, version, steps)?;
        let groups = made.groups();
        let position = self.install(who, made)?;
        Ok(AggBuilt {
            position,
            version,
            groups,
        })
    }

    /// The present version of the cube of an aggregate table.
    pub fn table_version(&self, table: u32) -> Version
        requires declared { table < length self.now.setting.catalog.schema.aggregates }
        ensures { result ≡ present_version self.now.setting.catalog self.now.entries table }
    {
        self.facts.version(cube_of(self.catalog(), table))
    }

    /// An aggregate table of the schema over a version of its cube.
    pub fn build<L: Ledger>(
        &self,
        table: u32,
        version: Version,
        steps: &mut Steps<L>,
    ) -> Result<AggTable, OutOfMemory>
        requires declared { table < length self.now.setting.catalog.schema.aggregates }
        requires reached { version
            ≤ present_version self.now.setting.catalog self.now.entries table }
        ensures own { IfOk result (IsOwnTable self.now) }
        ensures table { IfOk result (λ made. made.table ≡ table) }
        ensures version { IfOk result (λ made. made.version ≡ version) }
        ensures cost { OnOk result (steps.new
            ≡ steps.old + version_rows self.now.setting.catalog self.now.entries table version) }
        ensures at_least { steps.old ≤ steps.new }
        ensures at_most { steps.new
            ≤ steps.old + version_rows self.now.setting.catalog self.now.entries table version }
    {
        let cube = cube_of(self.catalog(), table);
        let snapshot = self.facts.snapshot(cube, version)?;
        let made = build(self.alloc, self.catalog(), table, &snapshot, steps)?;
        Ok(made)
    }
}
