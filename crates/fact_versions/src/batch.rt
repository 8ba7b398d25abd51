//! Fact rows of one cube.
ghost use Rattle.std.specs.Prelude.{◌≡◌, ◌==◌, ◌&&◌, ◌+◌, ◌^◌, ◌<◌, [], ◌∷◌, ◌++◌, true, Some, IfOk, OnOk, OnErr, length, slice_get, option_and_then};
ghost use Rattle.std.specs.List.{list_all};

use crate::columns::Columns;
use crate::piece::Piece;
use crate::steps::Steps;
use olap_meaning::{LeafId, OutOfMemory};
use std::alloc::Global;
use std::marker::Model;
use std::sync::ledger::Ledger;

// No batch has more rows. Only one without any column could.
const ROWS_MOST: u64 = (1 << 63) - 1;

/// Fact rows of one cube, at 4 bytes for each leaf of a row and 16 for each of its values. Its rows come out only by
/// `read`, which counts them.
#[derive(Drop)]
pub struct Batch {
    rows: u64,
    leaves: Columns<LeafId>,
    values: Columns<Option<i64>>,
}

impl Model for Batch {
    ghost use Rattle.std.specs.Prelude.{length};
    ghost use Rattle.fact_versions.specs.FactRows.{FactRows};
    ghost use Rattle.fact_versions.specs.Columns.{AreColumns, rows_of_columns};

    ghost Value = { FactRows };

    ghost view = { λ a. record { dimensions = length a.leaves; columns = length a.values; rows = rows_of_columns a.rows a.leaves a.values } };

    ghost invariant = { λ a. AreColumns a.rows a.leaves a.values };
}

impl Batch {
    /// The batch of no row.
    pub fn new(alloc: Global, dimensions: u32, columns: u32) -> Result<Batch, OutOfMemory>
        ensures { IfOk result
            (λ batch. batch ≡ record { dimensions = dimensions; columns = columns; rows = [] }) }
    {
        Ok(Batch {
            rows: 0,
            leaves: Columns::new(alloc, dimensions)?,
            values: Columns::new(alloc, columns)?,
        })
    }

    /// Makes exact room for this many rows more, so that a reader that knows how many rows may come takes no more.
    pub fn reserve(&mut self, rows: usize) -> Result<(), OutOfMemory>
        ensures { self.new ≡ self.old }
    {
        self.leaves.reserve(rows)?;
        self.values.reserve(rows)
    }

    /// Adds a row.
    pub fn push(&mut self, leaves: &[LeafId], values: &[Option<i64>]) -> Result<(), OutOfMemory>
        requires leaves { length leaves.now ≡ self.old.dimensions }
        requires values { length values.now ≡ self.old.columns }
        ensures ok { OnOk result
            (self.new
            ≡ record self.old {
              rows = self.old.rows
                  ++ (record { leaves = leaves.now; values = values.now }) ∷ [];
            }) }
        ensures err { OnErr result (self.new ≡ self.old) }
    {
        if self.rows == ROWS_MOST {
            return Err(OutOfMemory);
        }
        let rows = self.rows as usize;
        self.leaves.push(rows, leaves)?;
        if let Err(error) = self.values.push(rows, values) {
            self.leaves.cut(rows);
            return Err(error);
        }
        self.rows += 1;
        Ok(())
    }

    /// The number of rows.
    pub fn len(&self) -> u64
        ensures rows { result ≡ length self.now.rows }
        ensures bound { length self.now.rows < 2 ^ 63 }
        ensures fit { list_all
            (λ row. (length row.leaves == self.now.dimensions)
            && (length row.values == self.now.columns)) self.now.rows ≡ true }
    {
        self.rows
    }

    /// Whether there is no row.
    pub fn is_empty(&self) -> bool
        ensures { result ≡ (length self.now.rows == 0) }
    {
        self.rows == 0
    }

    /// How many leaves each row has.
    pub fn dimensions(&self) -> u32
        ensures { result ≡ self.now.dimensions }
    {
        self.leaves.len() as u32
    }

    /// How many values each row has.
    pub fn columns(&self) -> u32
        ensures { result ≡ self.now.columns }
    {
        self.values.len() as u32
    }

    /// All rows, for a step each. This is the one way to a row.
    pub fn read<L: Ledger>(&self, steps: &mut Steps<L>) -> Piece<'_>
        ensures rows { result ≡ self.now }
        ensures cost { steps.new ≡ steps.old + length self.now.rows }
    {
        steps.add(self.len());
        Piece::new(self)
    }

    /// The leaf of a row in a dimension.
    pub(crate) fn leaf(&self, i: u64, dimension: u32) -> LeafId
        requires row { i < length self.now.rows }
        requires dimension { dimension < self.now.dimensions }
        ensures { option_and_then
            (λ row. slice_get row.leaves dimension) (slice_get self.now.rows i) ≡ Some result }
    {
        self.leaves.item(dimension as usize, i as usize)
    }

    /// The value of a row in a column.
    pub(crate) fn value(&self, i: u64, column: u32) -> Option<i64>
        requires row { i < length self.now.rows }
        requires column { column < self.now.columns }
        ensures { option_and_then (λ row. slice_get row.values column) (slice_get self.now.rows i)
            ≡ Some result }
    {
        self.values.item(column as usize, i as usize)
    }
}
