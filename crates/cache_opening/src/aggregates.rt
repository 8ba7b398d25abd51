//! The aggregate table of a file, checked against the base batch of its cube.
ghost use Rattle.std.specs.Prelude.{◌≡◌, ◌+◌, ◌<◌, ◌≤◌, ◌∷◌, [], Err, IfErr, IfOk, IsSomeAnd, Ok, OnOk, length, option_copied, slice_get};
ghost use Rattle.cache_opening.specs.Asking.{Comes, Leads, read_by};
ghost use Rattle.cache_opening.specs.Opening.{base_rows, check_from, table_in};
ghost use Rattle.cache_opening.specs.Steps.{FilesCame, IsBaseTable, IsBased, IsOrMemory, ReadsFew, base_in, batches_in};

use crate::fault::OpenFault;
use crate::files::fetch;
use agg_tables::{AggFault, AggTable, check, cube_of};
use cache_manager::Manager;
use fact_versions::Steps;
use olap_catalog::Catalog;
use olap_meaning::{OutOfMemory, Text};
use outside::Depot;
use std::alloc::Global;
use std::sync::ledger::Ledger;

/// The name of the file of an aggregate table, by the table's place in the schema, if it has one.
pub(crate) fn aggregate_file(catalog: &Catalog, table: u32) -> Option<&Text>
    requires { table < length catalog.now.schema.aggregates }
    ensures { IsSomeAnd (slice_get catalog.now.schema.aggregates table)
        (λ own. option_copied result ≡ own.file) }
{
    let own = &catalog.schema().aggregates.as_slice()[table as usize];
    own.file.as_ref()
}

// The aggregate table at a place of the schema, where these bytes of its file are right.
fn aggregate_in<L: Ledger>(
    alloc: Global,
    manager: &Manager,
    table: u32,
    file: &str,
    bytes: &[u8],
    steps: &mut Steps<L>,
) -> Result<AggTable, OpenFault>
    requires known { table < length manager.now.setting.catalog.schema.aggregates }
    requires based { IsBased manager.now }
    ensures ok { OnOk result (table_in (base_in manager.now) table bytes.now ≡ Ok (table ∷ [])) }
    ensures made { IfOk result (λ made. IsBaseTable manager.now table made) }
    ensures fault { IfErr result (λ fault. Comes
        (read_by (OpenFault.Aggregate file.now) (table_in (base_in manager.now) table bytes.now))
        [] (Err fault)) }
    ensures cost { OnOk result (steps.new ≡ steps.old
        + length (base_rows manager.now.setting.catalog (batches_in manager.now.entries) table)) }
    ensures at_least { steps.old ≤ steps.new }
    ensures at_most { steps.new ≤ steps.old
        + length (base_rows manager.now.setting.catalog (batches_in manager.now.entries) table) }
{
    let snapshot = manager.snapshot(cube_of(manager.catalog(), table))?;
    match check(alloc, manager.catalog(), table, bytes, &snapshot, steps) {
        Ok(made) => Ok(made),
        Err(AggFault::OutOfMemory) => Err(OpenFault::OutOfMemory),
        Err(fault) => Err(refused_aggregate(alloc, file, fault)),
    }
}

// The fault of the file of an aggregate table.
fn refused_aggregate(alloc: Global, file: &str, fault: AggFault) -> OpenFault
    ensures { IsOrMemory (OpenFault.Aggregate file.now fault) result }
{
    match Text::from_str(alloc, file) {
        Ok(file) => OpenFault::Aggregate { file, fault },
        Err(OutOfMemory) => OpenFault::OutOfMemory,
    }
}

/// The aggregate table at a place of the schema, by the name of its file.
pub(crate) fn open_aggregate<D: Depot, L: Ledger>(
    alloc: Global,
    depot: &mut D,
    manager: &Manager,
    table: u32,
    file: &str,
    steps: &mut Steps<L>,
) -> Result<AggTable, OpenFault>
    requires known { table < length manager.now.setting.catalog.schema.aggregates }
    requires based { IsBased manager.now }
    ensures ok { OnOk result
        (Leads (D.files depot.old) (D.answers depot.old) (D.answers depot.new)
        (check_from (base_in manager.now) table file.now) (Ok (table ∷ []))) }
    ensures made { IfOk result (λ made. IsBaseTable manager.now table made) }
    ensures fault { IfErr result (λ fault.
        Leads (D.files depot.old) (D.answers depot.old) (D.answers depot.new)
        (check_from (base_in manager.now) table file.now) (Err fault)) }
    ensures came { OnOk result (FilesCame (D.answers depot.old) (D.answers depot.new) 1) }
    ensures cost { OnOk result (steps.new ≡ steps.old
        + length (base_rows manager.now.setting.catalog (batches_in manager.now.entries) table)) }
    ensures at_least { steps.old ≤ steps.new }
    ensures at_most { ReadsFew (D.answers depot.old) (D.answers depot.new)
        (length (base_rows manager.now.setting.catalog (batches_in manager.now.entries) table))
        steps.old steps.new }
    ensures same_files { D.files depot.new ≡ D.files depot.old }
{
    let bytes = fetch(alloc, depot, file)?;
    aggregate_in(alloc, manager, table, file, bytes.as_slice(), steps)
}
