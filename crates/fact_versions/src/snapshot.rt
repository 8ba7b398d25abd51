//! One version of a cube.
ghost use Rattle.std.specs.Prelude.{◌≡◌, ◌+◌, ◌<◌, ◌≤◌, Some, length, slice_get};
ghost use Rattle.fact_versions.specs.Facts.{rows_of_batches};

use crate::batches::Batches;
use crate::piece::Piece;
use crate::steps::Steps;
use olap_meaning::{ROW_LIMIT, VERSION_LIMIT, Version};
use std::marker::Model;
use std::sync::ledger::Ledger;

/// The batches of a version of a cube, a piece for each. Its rows come out only by `piece`, which counts them.
#[derive(Drop)]
pub struct Snapshot {
    rows: u32,
    batches: Batches,
}

impl Model for Snapshot {
    ghost use Rattle.std.specs.Prelude.{List};
    ghost use Rattle.fact_versions.specs.FactRows.{FactRows};
    ghost use Rattle.fact_versions.specs.Kept.{IsSnapshot};

    ghost Value = { List FactRows };

    ghost view = { λ a. a.batches };

    ghost invariant = { λ a. IsSnapshot a.rows a.batches };
}

impl Snapshot {
    pub(crate) fn new(batches: Batches) -> Snapshot
        requires rows_fit { rows_of_batches batches ≤ ROW_LIMIT }
        requires versions_fit { length batches ≤ VERSION_LIMIT }
        ensures { result ≡ batches }
    {
        Snapshot {
            rows: batches.rows(),
            batches,
        }
    }

    /// The number of rows.
    pub fn rows(&self) -> u32
        ensures rows { result ≡ rows_of_batches self.now }
        ensures bound { rows_of_batches self.now ≤ ROW_LIMIT }
    {
        self.rows
    }

    /// The number of pieces, one for each batch.
    pub fn pieces(&self) -> u32
        ensures { result ≡ length self.now }
    {
        self.batches.len() as u32
    }

    /// The version that it is of.
    pub fn version(&self) -> Version
        ensures { result ≡ length self.now }
    {
        Version(self.pieces())
    }

    /// The rows of a batch, for a step each. This is the one way to a row.
    pub fn piece<L: Ledger>(&self, i: u32, steps: &mut Steps<L>) -> Piece<'_>
        requires { i < length self.now }
        ensures rows { Some result ≡ slice_get self.now i }
        ensures cost { steps.new ≡ steps.old + length result.rows }
    {
        self.batches.get(i as usize).read(steps)
    }
}
