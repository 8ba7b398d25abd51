//! Opening a cache.
ghost use Rattle.std.specs.Prelude.{◌≡◌, ◌≤◌, ◌+◌, [], Err, IfErr, IfOk, OnErr};
ghost use Rattle.olap_meaning.specs.Limits.{row_limit};
ghost use Rattle.history_core.specs.History.{setting_of};
ghost use Rattle.history_core.specs.Seats.{NoneFlies, entries_of};
ghost use Rattle.cache_opening.specs.Asking.{Leads};
ghost use Rattle.cache_opening.specs.Opening.{AddsFewSteps, IsOpened, base_from, opening_from, rows_checked};
ghost use Rattle.cache_opening.specs.Steps.{HasJustBase};

use crate::catalogs::open_catalog;
use crate::cubes::open_cubes;
use crate::fault::OpenFault;
use crate::installs::install_tables;
use cache_manager::Manager;
use fact_versions::Steps;
use olap_catalog::Catalog;
use olap_meaning::{OutOfMemory, ROW_LIMIT};
use outside::Depot;
use std::alloc::Global;
use std::sync::Arc;
use std::sync::ledger::Ledger;

/// Opens a cache from a schema's file with a budget, the most groups that the kept loads have after an answer: it reads the schema, the tables of its dimensions, the base batches of its cubes
/// and the files of those aggregate tables that have one, each in the schema's order. Each base batch is appended to its
/// cube. Each aggregate table's file is checked against version 1 of its cube, at a step a row, and the table is
/// installed. There is one fetch for the schema, for each dimension, for each cube and for each of these tables, and no
/// other. The first refusal ends it.
pub fn open_cache<D: Depot, L: Ledger>(
    alloc: Global,
    depot: &mut D,
    file: &str,
    budget: u64,
    steps: &mut Steps<L>,
) -> Result<Manager, OpenFault>
    // A step was added for each row that an aggregate table is checked over.
    ensures opened { IfOk result (λ manager.
        (opened : IsOpened (D.files depot.old) (D.answers depot.old) (D.answers depot.new) file.now
        budget manager)
        × (steps.new ≡ steps.old
        + rows_checked opened.opening.catalog opened.opening.batches)) }
    ensures idle { IfOk result (λ manager. NoneFlies manager.entries) }
    ensures unused { IfOk result (λ manager. entries_of manager.entries 1 ≡ []) }
    ensures fault { IfErr result (λ fault.
        Leads (D.files depot.old) (D.answers depot.old) (D.answers depot.new)
        (opening_from file.now) (Err fault)) }
    ensures few { OnErr result
        (AddsFewSteps (D.files depot.old) (D.answers depot.old) (D.answers depot.new) file.now
        steps.old steps.new) }
    ensures at_least { steps.old ≤ steps.new }
    ensures same_files { D.files depot.new ≡ D.files depot.old }
{
    let mut manager = open_base(alloc, depot, file, budget)?;
    install_tables(alloc, depot, &mut manager, steps)?;
    Ok(manager)
}

// Opens what a cache has before its aggregate tables.
fn open_base<D: Depot>(
    alloc: Global,
    depot: &mut D,
    file: &str,
    budget: u64,
) -> Result<Manager, OpenFault>
    ensures base { IfOk result (λ manager.
        HasJustBase (D.files depot.old) (D.answers depot.old) (D.answers depot.new) file.now
        budget manager) }
    ensures fault { IfErr result (λ fault.
        Leads (D.files depot.old) (D.answers depot.old) (D.answers depot.new)
        (base_from file.now) (Err fault)) }
    ensures same_files { D.files depot.new ≡ D.files depot.old }
{
    let catalog = open_catalog(alloc, depot, file)?;
    let mut manager = new_manager(alloc, catalog, budget)?;
    open_cubes(alloc, depot, &mut manager)?;
    Ok(manager)
}

// The manager of a cache in which nothing has happened.
fn new_manager(alloc: Global, catalog: Catalog, budget: u64) -> Result<Manager, OutOfMemory>
    ensures { IfOk result (λ manager.
        manager ≡ record { setting = setting_of catalog row_limit budget; entries = [] }) }
{
    let catalog = Arc::new(alloc, catalog)?;
    Manager::new(alloc, catalog, ROW_LIMIT, budget)
}
