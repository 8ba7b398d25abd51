//! The rows of a batch, once they are counted.
ghost use Rattle.std.specs.Prelude.{◌≡◌, ◌==◌, ◌&&◌, ◌^◌, ◌<◌, true, Some, length, slice_get, option_and_then};
ghost use Rattle.std.specs.List.{list_all};

use crate::batch::Batch;
use olap_meaning::LeafId;
use std::marker::Model;

/// The rows of a batch that were handed out.
#[derive(Drop)]
pub struct Piece<'a> {
    batch: &'a Batch,
}

impl<'a> Model for Piece<'a> {
    ghost use Rattle.fact_versions.specs.FactRows.{FactRows};

    ghost Value = { FactRows };

    ghost view = { λ a. a.batch.now };
}

impl<'a> Piece<'a> {
    pub(crate) fn new(batch: &'a Batch) -> Piece<'a>
        ensures { result ≡ batch.entry.now }
    {
        Piece { batch }
    }

    /// The number of rows.
    pub fn len(&self) -> u64
        ensures rows { result ≡ length self.now.rows }
        ensures bound { length self.now.rows < 2 ^ 63 }
        ensures fit { list_all
            (λ row. (length row.leaves == self.now.dimensions)
            && (length row.values == self.now.columns)) self.now.rows ≡ true }
    {
        self.batch.len()
    }

    /// Whether there is no row.
    pub fn is_empty(&self) -> bool
        ensures { result ≡ (length self.now.rows == 0) }
    {
        self.batch.is_empty()
    }

    /// How many leaves each row has.
    pub fn dimensions(&self) -> u32
        ensures { result ≡ self.now.dimensions }
    {
        self.batch.dimensions()
    }

    /// How many values each row has.
    pub fn columns(&self) -> u32
        ensures { result ≡ self.now.columns }
    {
        self.batch.columns()
    }

    /// The leaf of a row in a dimension, in a few machine steps.
    pub fn leaf(&self, i: u64, dimension: u32) -> LeafId
        requires row { i < length self.now.rows }
        requires dimension { dimension < self.now.dimensions }
        ensures { option_and_then
            (λ row. slice_get row.leaves dimension) (slice_get self.now.rows i) ≡ Some result }
    {
        self.batch.leaf(i, dimension)
    }

    /// The value of a row in a fact column, in a few machine steps.
    pub fn value(&self, i: u64, column: u32) -> Option<i64>
        requires row { i < length self.now.rows }
        requires column { column < self.now.columns }
        ensures { option_and_then (λ row. slice_get row.values column) (slice_get self.now.rows i)
            ≡ Some result }
    {
        self.batch.value(i, column)
    }
}
