//! Aggregate tables, of each declaration one at most.
ghost use Rattle.std.specs.Prelude.{◌≡◌, ◌≤◌, ◌==◌, [], OnErr, OnOk, length, map, nat_le, position, slice_get};
ghost use Rattle.std.specs.List.{position_or_len};
ghost use Rattle.olap_meaning.specs.History.{is_some_and};
ghost use Rattle.installed_tables.specs.Installed.{put};

use agg_tables::AggTable;
use olap_meaning::OutOfMemory;
use std::alloc::Global;
use std::marker::Model;
use std::sync::Arc;

/// Aggregate tables that loads may read: of each declaration one at most, in the order of the declarations. Jobs share them.
#[derive(Drop)]
pub struct Installed {
    alloc: Global,
    tables: Vec<Arc<AggTable>>,
}

impl Model for Installed {
    ghost use Rattle.std.specs.Prelude.{List, map};
    ghost use Rattle.agg_tables.specs.Tables.{TableOf};

    ghost Value = { List TableOf };

    ghost view = { λ a. map (λ table. table.value) a.tables.items };
}

// The place of the first table that is no earlier in the schema than this one, if there is one.
fn first_behind(tables: &[Arc<AggTable>], table: u32) -> Option<usize>
    ensures { result ≡ position (λ own. nat_le table own.value.table) tables.now }
{
    tables.iter().position(|own| own.table() >= table)
}

// The place of a table among others: that of the first that is no earlier, and after all where each is earlier.
fn place_for(tables: &[Arc<AggTable>], table: u32) -> usize
    ensures value { result ≡ position_or_len (λ own. nat_le table own.value.table) tables.now }
    ensures within { result ≤ length tables.now }
{
    match first_behind(tables, table) {
        Some(place) => place,
        None => tables.len(),
    }
}

// Whether a table of this declaration stands at a place.
fn is_at(tables: &[Arc<AggTable>], place: usize, table: u32) -> bool
    ensures { result
        ≡ is_some_and (λ own. own.value.table == table) (slice_get tables.now place) }
{
    match tables.get(place) {
        Some(own) => own.table() == table,
        None => false,
    }
}

impl Installed {
    /// No table. It takes no memory.
    pub fn new(alloc: Global) -> Installed
        ensures { result ≡ [] }
    {
        Installed {
            alloc,
            tables: Vec::new(alloc),
        }
    }

    /// The tables, in the order of their declarations.
    pub fn tables(&self) -> &[Arc<AggTable>]
        ensures { map (λ table. table.value) result.now ≡ self.now }
    {
        self.tables.as_slice()
    }

    /// Installs a table: it takes the place of an earlier one of its declaration. Where there is no memory, nothing has changed.
    pub fn install(&mut self, table: AggTable) -> Result<(), OutOfMemory>
        ensures installed { OnOk result (self.new ≡ put table self.old) }
        ensures unchanged { OnErr result (self.new ≡ self.old) }
    {
        let place = place_for(self.tables.as_slice(), table.table());
        let shared = Arc::new(self.alloc, table)?;
        if is_at(self.tables.as_slice(), place, shared.table()) {
            self.tables[place] = shared;
            return Ok(());
        }
        if self.tables.insert(place, shared).is_err() {
            return Err(OutOfMemory);
        }
        Ok(())
    }
}
