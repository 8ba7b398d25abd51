//! The aggregate tables with a file, installed in a manager.
ghost use Rattle.std.specs.Prelude.{◌≡◌, ◌+◌, ◌++◌, ◌∷◌, ◌^◌, ◌<◌, ◌≤◌, [], Err, IfErr, IsSomeAnd, IsTrue, OnOk, length, slice_get};
ghost use Rattle.olap_meaning.specs.History.{Agg};
ghost use Rattle.olap_meaning.specs.Legal.{is_next_call};
ghost use Rattle.cache_manager.specs.Tables.{IsOwnTable};
ghost use Rattle.cache_opening.specs.Asking.{Leads};
ghost use Rattle.cache_opening.specs.Opening.{base_entries, checked_from, checks_from, rows_checked, rows_for};
ghost use Rattle.cache_opening.specs.Steps.{AreInstalled, FilesCame, IsBased, ReadsCame, ReadsFew, base_in, batches_in, files_for};

use crate::aggregates::{aggregate_file, open_aggregate};
use crate::fault::OpenFault;
use agg_tables::AggTable;
use cache_manager::Manager;
use fact_versions::Steps;
use olap_meaning::{OutOfMemory, Who};
use outside::Depot;
use std::alloc::Global;
use std::sync::ledger::Ledger;

// Installs an aggregate table.
fn install(manager: &mut Manager, table: AggTable) -> Result<(), OutOfMemory>
    requires few { length manager.old.entries < 2 ^ 32 }
    requires call { IsTrue (is_next_call manager.old.entries
        (record { seat = 0; call = length manager.old.entries + 1 })) }
    requires own { IsOwnTable manager.old table }
    ensures setting { manager.new.setting ≡ manager.old.setting }
    ensures entry { OnOk result
        (manager.new.entries ≡ manager.old.entries ++ Agg
        (record { seat = 0; call = length manager.old.entries + 1 }) table.table table.version
        ∷ []) }
{
    let who = Who {
        seat: 0,
        call: manager.history().len() + 1,
    };
    manager.install(who, table)?;
    Ok(())
}

// Reads, checks and installs the aggregate table at a place of the schema, where it has a file.
fn install_table<D: Depot, L: Ledger>(
    alloc: Global,
    depot: &mut D,
    manager: &mut Manager,
    table: u32,
    steps: &mut Steps<L>,
) -> Result<(), OpenFault>
    requires known { table < length manager.old.setting.catalog.schema.aggregates }
    requires based { IsBased manager.old }
    requires few { length manager.old.entries < 2 ^ 32 }
    ensures setting { manager.new.setting ≡ manager.old.setting }
    ensures ok { OnOk result
        (IsSomeAnd (slice_get manager.old.setting.catalog.schema.aggregates table)
        (λ own. AreInstalled (D.files depot.old) (D.answers depot.old) (D.answers depot.new)
        (checked_from (base_in manager.old) table own.file)
        manager.old.entries manager.new.entries)) }
    ensures one { OnOk result (length manager.new.entries ≤ length manager.old.entries + 1) }
    ensures fault { IfErr result (λ fault.
        IsSomeAnd (slice_get manager.old.setting.catalog.schema.aggregates table)
        (λ own. Leads (D.files depot.old) (D.answers depot.old) (D.answers depot.new)
        (checked_from (base_in manager.old) table own.file) (Err fault))) }
    ensures cost { OnOk result
        (IsSomeAnd (slice_get manager.old.setting.catalog.schema.aggregates table)
        (λ own. steps.new ≡ steps.old
        + rows_for manager.old.setting.catalog (batches_in manager.old.entries) table own)) }
    ensures at_least { steps.old ≤ steps.new }
    ensures came { OnOk result
        (IsSomeAnd (slice_get manager.old.setting.catalog.schema.aggregates table)
        (λ own. FilesCame (D.answers depot.old) (D.answers depot.new) (files_for own))) }
    ensures at_most { IsSomeAnd (slice_get manager.old.setting.catalog.schema.aggregates table)
        (λ own. ReadsFew (D.answers depot.old) (D.answers depot.new)
        (rows_for manager.old.setting.catalog (batches_in manager.old.entries) table own)
        steps.old steps.new) }
    ensures same_files { D.files depot.new ≡ D.files depot.old }
{
    match aggregate_file(manager.catalog(), table) {
        Some(file) => {
            let made = open_aggregate(alloc, depot, manager, table, file.as_str(), steps)?;
            install(manager, made)?;
            Ok(())
        }
        None => Ok(()),
    }
}

/// Reads, checks and installs the aggregate tables that have a file, in the schema's order.
pub(crate) fn install_tables<D: Depot, L: Ledger>(
    alloc: Global,
    depot: &mut D,
    manager: &mut Manager,
    steps: &mut Steps<L>,
) -> Result<(), OpenFault>
    requires based { IsBased manager.old }
    requires first { manager.old.entries ≡ base_entries 0 (batches_in manager.old.entries) }
    ensures setting { manager.new.setting ≡ manager.old.setting }
    ensures ok { OnOk result
        (AreInstalled (D.files depot.old) (D.answers depot.old) (D.answers depot.new)
        (checks_from (base_in manager.old) 0 manager.old.setting.catalog.schema.aggregates)
        manager.old.entries manager.new.entries) }
    ensures fault { IfErr result (λ fault.
        Leads (D.files depot.old) (D.answers depot.old) (D.answers depot.new)
        (checks_from (base_in manager.old) 0 manager.old.setting.catalog.schema.aggregates)
        (Err fault)) }
    ensures cost { OnOk result (steps.new ≡ steps.old
        + rows_checked manager.old.setting.catalog (batches_in manager.old.entries)) }
    ensures at_least { steps.old ≤ steps.new }
    ensures at_most { ReadsCame (D.answers depot.old) (D.answers depot.new) (base_in manager.old)
        steps.old steps.new }
    ensures same_files { D.files depot.new ≡ D.files depot.old }
{
    manager.catalog().is_whole();
    let count = manager.catalog().schema().aggregates.len();
    for table in 0..count {
        install_table(alloc, depot, manager, table as u32, steps)?;
    }
    Ok(())
}
