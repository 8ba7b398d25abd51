//! The base batches of all cubes, appended to a manager.
ghost use Rattle.std.specs.Prelude.{◌≡◌, ◌+◌, ◌++◌, ◌∷◌, [], Err, IfErr, IsSomeAnd, IsTrue, OnOk, slice_get};
ghost use Rattle.olap_meaning.specs.History.{Append};
ghost use Rattle.olap_meaning.specs.Legal.{rows_held};
ghost use Rattle.fact_reader.specs.BodyRows.{is_batch};
ghost use Rattle.cache_opening.specs.Asking.{Comes, Leads, made};
ghost use Rattle.cache_opening.specs.Steps.{AreOpened, IsAppended, IsBegun, IsNext, IsOrMemory};
ghost use Rattle.cache_opening.specs.Opening.{batch_from, batches_from, fitting};

use crate::batches::{fact_file, open_batch};
use crate::fault::OpenFault;
use cache_manager::Manager;
use fact_versions::{AppendFault, Batch};
use olap_meaning::{CubeId, OutOfMemory, Text, Who};
use outside::Depot;
use std::alloc::Global;

// Appends the base batch of a cube.
fn append_base(
    alloc: Global,
    manager: &mut Manager,
    cube: u16,
    batch: Batch,
) -> Result<(), OpenFault>
    requires next { IsNext manager.old cube }
    requires fit { IsTrue (is_batch manager.old.setting.catalog cube batch) }
    ensures setting { manager.new.setting ≡ manager.old.setting }
    ensures entry { OnOk result
        (manager.new.entries ≡ manager.old.entries ++ Append
        (record { seat = 0; call = cube + 1 }) cube 1 batch.rows ∷ []) }
    ensures ok { OnOk result
        (IsSomeAnd (slice_get manager.old.setting.catalog.schema.cubes cube)
        (λ c. fitting c.fact (rows_held manager.old.entries) batch.rows ≡ made batch.rows)) }
    ensures fault { IfErr result (λ fault.
        IsSomeAnd (slice_get manager.old.setting.catalog.schema.cubes cube)
        (λ c. Comes (fitting c.fact (rows_held manager.old.entries) batch.rows) [] (Err fault))) }
{
    let who = Who {
        seat: 0,
        call: u64::from(cube) + 1,
    };
    let cube = CubeId(cube);
    match manager.append(who, cube, batch) {
        Ok(_) => Ok(()),
        Err(AppendFault::TooManyRows { total, limit }) => {
            let file = fact_file(manager.catalog(), cube);
            Err(too_many_rows(alloc, file, total, limit))
        }
        // The cube has no version yet.
        Err(AppendFault::TooManyVersions { .. }) => unreachable!(),
        Err(AppendFault::OutOfMemory) => Err(OpenFault::OutOfMemory),
    }
}

// That there are too many rows with the base batch of this file.
fn too_many_rows(alloc: Global, file: &str, total: u64, limit: u32) -> OpenFault
    ensures { IsOrMemory (OpenFault.TooManyRows file.now total limit) result }
{
    match Text::from_str(alloc, file) {
        Ok(file) => OpenFault::TooManyRows { file, total, limit },
        Err(OutOfMemory) => OpenFault::OutOfMemory,
    }
}

// Reads and appends the base batch of a cube.
fn open_cube<D: Depot>(
    alloc: Global,
    depot: &mut D,
    manager: &mut Manager,
    cube: u16,
) -> Result<(), OpenFault>
    requires next { IsNext manager.old cube }
    ensures setting { manager.new.setting ≡ manager.old.setting }
    ensures ok { OnOk result
        (IsSomeAnd (slice_get manager.old.setting.catalog.schema.cubes cube)
        (λ c. IsAppended (D.files depot.old) (D.answers depot.old) (D.answers depot.new)
        (batch_from manager.old.setting.catalog cube (rows_held manager.old.entries) c)
        cube manager.old.entries manager.new.entries)) }
    ensures fault { IfErr result (λ fault.
        IsSomeAnd (slice_get manager.old.setting.catalog.schema.cubes cube)
        (λ c. Leads (D.files depot.old) (D.answers depot.old) (D.answers depot.new)
        (batch_from manager.old.setting.catalog cube (rows_held manager.old.entries) c)
        (Err fault))) }
    ensures same_files { D.files depot.new ≡ D.files depot.old }
{
    let batch = open_batch(alloc, depot, manager.catalog(), CubeId(cube))?;
    append_base(alloc, manager, cube, batch)
}

/// Reads and appends the base batches of all cubes, in the schema's order.
pub(crate) fn open_cubes<D: Depot>(
    alloc: Global,
    depot: &mut D,
    manager: &mut Manager,
) -> Result<(), OpenFault>
    requires { IsBegun manager.old }
    ensures setting { manager.new.setting ≡ manager.old.setting }
    ensures ok { OnOk result
        (AreOpened (D.files depot.old) (D.answers depot.old) (D.answers depot.new) manager.new) }
    ensures fault { IfErr result (λ fault.
        Leads (D.files depot.old) (D.answers depot.old) (D.answers depot.new)
        (batches_from manager.old.setting.catalog 0 0 manager.old.setting.catalog.schema.cubes)
        (Err fault)) }
    ensures same_files { D.files depot.new ≡ D.files depot.old }
{
    let count = manager.catalog().cube_count();
    for cube in 0..count {
        open_cube(alloc, depot, manager, cube as u16)?;
    }
    Ok(())
}
