//! The base batch of a cube.
ghost use Rattle.std.specs.Prelude.{◌≡◌, ◌<◌, [], Err, IfErr, IfOk, IsSomeAnd, IsTrue, Ok, length, slice_get};
ghost use Rattle.fact_rows.specs.BatchFiles.{batch_of};
ghost use Rattle.fact_reader.specs.BodyRows.{is_batch};
ghost use Rattle.cache_opening.specs.Asking.{Comes, Leads, read_by};
ghost use Rattle.cache_opening.specs.Opening.{facts_from};
ghost use Rattle.cache_opening.specs.Steps.{HasCubes, IsOrMemory};

use crate::fault::OpenFault;
use crate::files::fetch;
use fact_rows::{BatchFault, read_batch};
use fact_versions::Batch;
use olap_catalog::Catalog;
use olap_meaning::{CubeId, OutOfMemory, Text};
use outside::Depot;
use std::alloc::Global;

/// The name of the file of a cube's base batch.
pub(crate) fn fact_file(catalog: &Catalog, cube: CubeId) -> &str
    requires { cube < length catalog.now.schema.cubes }
    ensures { IsSomeAnd (slice_get catalog.now.schema.cubes cube) (λ c. result.now ≡ c.fact) }
{
    let cube = &catalog.schema().cubes.as_slice()[cube.0 as usize];
    cube.fact.as_str()
}

// The base batch that the bytes of a cube's file are.
fn batch_in(
    alloc: Global,
    catalog: &Catalog,
    cube: CubeId,
    bytes: &[u8],
) -> Result<Batch, OpenFault>
    requires known { cube < length catalog.now.cubes }
    requires whole { HasCubes catalog.now }
    ensures ok { IfOk result (λ batch. batch_of catalog.now cube bytes.now ≡ Ok batch) }
    ensures fit { IfOk result (λ batch. IsTrue (is_batch catalog.now cube batch)) }
    ensures fault { IfErr result (λ fault.
        IsSomeAnd (slice_get catalog.now.schema.cubes cube)
        (λ c. Comes
        (read_by (OpenFault.Batch c.fact) (batch_of catalog.now cube bytes.now)) [] (Err fault))) }
{
    match read_batch(alloc, catalog, cube, bytes) {
        Ok(batch) => Ok(batch),
        Err(BatchFault::OutOfMemory) => Err(OpenFault::OutOfMemory),
        Err(fault) => Err(refused_batch(alloc, fact_file(catalog, cube), fault)),
    }
}

// The fault of the file of a base batch.
fn refused_batch(alloc: Global, file: &str, fault: BatchFault) -> OpenFault
    ensures { IsOrMemory (OpenFault.Batch file.now fault) result }
{
    match Text::from_str(alloc, file) {
        Ok(file) => OpenFault::Batch { file, fault },
        Err(OutOfMemory) => OpenFault::OutOfMemory,
    }
}

/// The base batch of a cube.
pub(crate) fn open_batch<D: Depot>(
    alloc: Global,
    depot: &mut D,
    catalog: &Catalog,
    cube: CubeId,
) -> Result<Batch, OpenFault>
    requires known { cube < length catalog.now.cubes }
    requires whole { HasCubes catalog.now }
    ensures read { IsSomeAnd (slice_get catalog.now.schema.cubes cube)
        (λ c. Leads (D.files depot.old) (D.answers depot.old) (D.answers depot.new)
        (facts_from catalog.now cube c) result) }
    ensures fit { IfOk result (λ batch. IsTrue (is_batch catalog.now cube batch)) }
    ensures same_files { D.files depot.new ≡ D.files depot.old }
{
    let bytes = fetch(alloc, depot, fact_file(catalog, cube))?;
    batch_in(alloc, catalog, cube, bytes.as_slice())
}
