//! Batches of a cube, shared.
ghost use Rattle.std.specs.Prelude.{◌≡◌, ◌<◌, ◌≤◌, ◌^◌, [], ◌∷◌, ◌++◌, Some, IfOk, OnOk, OnErr, length, slice_get, take};
ghost use Rattle.fact_versions.specs.Facts.{rows_of_batches};

use crate::batch::Batch;
use olap_meaning::OutOfMemory;
use std::alloc::Global;
use std::marker::Model;
use std::sync::Arc;

/// Batches in the order in which they came.
#[derive(Drop)]
pub(crate) struct Batches {
    batches: Vec<Arc<Batch>>,
}

impl Model for Batches {
    ghost use Rattle.std.specs.Prelude.{List, map};
    ghost use Rattle.fact_versions.specs.FactRows.{FactRows};

    ghost Value = { List FactRows };

    ghost view = { λ a. map (λ batch. batch.value) a.batches.items };
}

impl Batches {
    /// No batch. It takes no memory.
    pub(crate) fn new(alloc: Global) -> Batches
        ensures { result ≡ [] }
    {
        Batches {
            batches: Vec::new(alloc),
        }
    }

    pub(crate) fn len(&self) -> usize
        ensures { result ≡ length self.now }
    {
        self.batches.len()
    }

    pub(crate) fn push(&mut self, batch: Arc<Batch>) -> Result<(), OutOfMemory>
        ensures ok { OnOk result (self.new ≡ self.old ++ batch.value ∷ []) }
        ensures err { OnErr result (self.new ≡ self.old) }
    {
        self.batches.push(batch)?;
        Ok(())
    }

    pub(crate) fn get(&self, i: usize) -> &Batch
        requires { i < length self.now }
        ensures { Some result.now ≡ slice_get self.now i }
    {
        &self.batches[i]
    }

    /// The first batches, shared with these.
    pub(crate) fn first(&self, alloc: Global, count: usize) -> Result<Batches, OutOfMemory>
        requires { count ≤ length self.now }
        ensures { IfOk result (λ first. first ≡ take count self.now) }
    {
        let mut batches = Vec::with_capacity(alloc, count)?;
        for batch in &self.batches[..count] {
            batches.push(Arc::try_clone(batch)?)?;
        }
        Ok(Batches { batches })
    }

    /// The rows of all of them.
    pub(crate) fn rows(&self) -> u32
        requires { rows_of_batches self.now < 2 ^ 32 }
        ensures { result ≡ rows_of_batches self.now }
    {
        let mut rows: u32 = 0;
        for batch in &self.batches {
            rows += batch.len() as u32;
        }
        rows
    }
}
