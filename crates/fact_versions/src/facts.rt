//! The batches of all cubes.
ghost use Rattle.std.specs.Prelude.{◌≡◌, ◌⊎◌, ◌<◌, ◌≤◌, [], All, None, Some, IfErr, IfOk, OnErr, OnOk, length, replicate, take};
ghost use Rattle.fact_versions.specs.Facts.{IsAlike, append_fault, arrival, batches_of, with_batch};

use crate::batch::Batch;
use crate::batches::Batches;
use crate::faults::AppendFault;
use crate::snapshot::Snapshot;
use olap_meaning::{CubeId, OutOfMemory, ROW_LIMIT, VERSION_LIMIT, Version};
use std::alloc::Global;
use std::marker::Model;
use std::sync::Arc;

/// The facts of all cubes: the batches of each, one for each of its versions.
#[derive(Drop)]
pub struct Facts {
    alloc: Global,
    limit: u32,
    held: u32,
    cubes: Vec<Batches>,
}

impl Model for Facts {
    ghost use Rattle.fact_versions.specs.Facts.{FactsOf};
    ghost use Rattle.fact_versions.specs.Kept.{AreFacts};

    ghost Value = { FactsOf };

    ghost view = { λ a. record { limit = a.limit; cubes = a.cubes.items } };

    ghost invariant = { λ a. AreFacts a.held a.limit a.cubes.items };
}

impl Facts {
    /// This many cubes at version 0, and how many rows there may be over all of them.
    pub fn new(alloc: Global, cubes: u32, row_limit: u32) -> Result<Facts, OutOfMemory>
        requires { row_limit ≤ ROW_LIMIT }
        ensures { IfOk result
            (λ facts. facts ≡ record { limit = row_limit; cubes = replicate cubes [] }) }
    {
        Ok(Facts {
            alloc,
            limit: row_limit,
            held: 0,
            cubes: without_batches(alloc, cubes)?,
        })
    }

    /// Adds a batch to a cube, and tells the version that it makes. A refused batch is dropped.
    pub fn append(&mut self, cube: CubeId, batch: Arc<Batch>) -> Result<Version, AppendFault>
        requires known { cube < length self.old.cubes }
        requires alike { All (IsAlike batch.value) (batches_of self.old cube) }
        ensures admitted { OnOk result (append_fault (arrival self.old cube batch.value) ≡ None) }
        ensures appended { OnOk result (self.new ≡ with_batch self.old cube batch.value) }
        ensures version { IfOk result (λ version. version ≡ length (batches_of self.new cube)) }
        ensures fault { IfErr result (λ fault. (fault ≡ AppendFault.OutOfMemory)
            ⊎ (append_fault (arrival self.old cube batch.value) ≡ Some fault)) }
        ensures unchanged { OnErr result (self.new ≡ self.old) }
    {
        let total = u64::from(self.held) + batch.len();
        if total > u64::from(self.limit) {
            return Err(AppendFault::TooManyRows {
                total,
                limit: self.limit,
            });
        }
        let batches = &mut self.cubes[usize::from(cube.0)];
        if batches.len() == VERSION_LIMIT as usize {
            return Err(AppendFault::TooManyVersions {
                limit: VERSION_LIMIT,
            });
        }
        batches.push(batch)?;
        let version = Version(batches.len() as u32);
        self.held = total as u32;
        Ok(version)
    }

    /// The version of a cube: how many batches it has.
    pub fn version(&self, cube: CubeId) -> Version
        requires { cube < length self.now.cubes }
        ensures { result ≡ length (batches_of self.now cube) }
    {
        Version(self.cubes[usize::from(cube.0)].len() as u32)
    }

    /// A version of a cube. It shares its batches with the facts.
    pub fn snapshot(&self, cube: CubeId, version: Version) -> Result<Snapshot, OutOfMemory>
        requires known { cube < length self.now.cubes }
        requires reached { version ≤ length (batches_of self.now cube) }
        ensures { IfOk result (λ snapshot. snapshot ≡ take version (batches_of self.now cube)) }
    {
        let batches = self.cubes[usize::from(cube.0)].first(self.alloc, version.0 as usize)?;
        Ok(Snapshot::new(batches))
    }
}

/// This many lists of no batch.
fn without_batches(alloc: Global, cubes: u32) -> Result<Vec<Batches>, OutOfMemory>
    ensures { IfOk result (λ lists. lists.items ≡ replicate cubes []) }
{
    let mut lists = Vec::with_capacity(alloc, cubes as usize)?;
    for _ in 0..cubes {
        lists.push(Batches::new(alloc))?;
    }
    Ok(lists)
}
