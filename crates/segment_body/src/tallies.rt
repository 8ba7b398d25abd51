//! Tallies of many cells, which take folds of bodies.
ghost use Rattle.std.specs.Prelude.{◌≡◌, ◌≢◌, ◌≤◌, ◌++◌, ◌∷◌, [], All, IfOk, IsTrue, length};
ghost use Rattle.std.specs.List.{AllZip, list_all};
ghost use Rattle.olap_meaning.specs.Covering.{header_covers};
ghost use Rattle.segment_header.specs.Headers.{is_set};
ghost use Rattle.segment_body.specs.AllFolds as all_folds;
ghost use Rattle.segment_body.specs.AllFolds.{AreFolded, fold_of, folded_numbers};
ghost use Rattle.segment_body.specs.Groups.{groups_of};

use crate::body::Body;
use crate::group::GroupTable;
use crate::tables::CellTable;
use measure_folds::Tally;
use olap_meaning::{Aggregator, Allowed, Cell, ColumnId, List, OutOfMemory, ROW_LIMIT};
use std::alloc::Global;
use std::marker::Model;
use traces::Trace;

/// A fold that was taken, for contracts alone: a body, a column, and what is allowed there.
#[derive(Drop)]
pub(crate) struct Fold {
    pub(crate) body: Trace<Body>,
    pub(crate) column: ColumnId,
    pub(crate) own: Trace<Allowed>,
}

/// A tally for each of some cells of the same columns. It takes folds of bodies (`Body::fold_into`), one after another, so
/// that many cells are rolled up from several bodies in one pass over the groups of each.
#[derive(Drop)]
pub struct CellTallies {
    alloc: Global,
    aggregator: Aggregator,
    table: CellTable,
    cells: Trace<Cell>,
    folds: Trace<Fold>,
}

impl Model for CellTallies {
    ghost use Rattle.segment_body.specs.AllFolds.{TalliesOf};
    ghost use Rattle.segment_body.specs.Tables.{AreTallied, folds_in};

    ghost Value = { TalliesOf };

    ghost view = { λ t. record { aggregator = t.aggregator; cells = t.cells.items; folds = folds_in t.folds.items } };

    ghost invariant = { λ t. AreTallied t.aggregator t.cells.items (folds_in t.folds.items) t.table };
}

impl CellTallies {
    /// Tallies of no row. Room for all is made here: folds take no memory.
    pub fn new(
        alloc: Global,
        aggregator: Aggregator,
        cells: &[Cell],
    ) -> Result<CellTallies, OutOfMemory>
        requires adds_up { aggregator ≢ Aggregator.DistinctCount }
        requires alike { IsTrue (all_folds.are_alike cells.now) }
        ensures { IfOk result
            (λ tallies. tallies ≡ record { aggregator = aggregator; cells = cells.now; folds = [] }) }
    {
        Ok(CellTallies {
            alloc,
            aggregator,
            table: CellTable::new(alloc, aggregator, cells)?,
            cells: trace_of(cells),
            folds: Trace::new(),
        })
    }

    // Takes a fold of a body, by its groups.
    pub(crate) fn take(&mut self, body: &Body, groups: &GroupTable, column: ColumnId, own: &Allowed)
        requires groups { groups.now ≡ groups_of body.now.aggregator body.now.rows }
        requires aggregator { body.now.aggregator ≡ self.old.aggregator }
        requires formed { IsTrue (is_set own.now) }
        requires covered { IsTrue (list_all (header_covers body.now.header) self.old.cells) }
        requires room { All
            (λ cell. length
            (folded_numbers cell (self.old.folds ++ fold_of body.now column own.now ∷ []))
            ≤ ROW_LIMIT) self.old.cells }
        ensures { self.new
            ≡ record self.old { folds = self.old.folds ++ fold_of body.now column own.now ∷ [] } }
    {
        let header = body.header();
        self.table.take(
            self.aggregator,
            header.columns.as_slice(),
            groups,
            column,
            Some(own),
        );
        let body = Trace::new().and(body);
        let own = Trace::new().and(own);
        self.folds = self.folds.and(&Fold { body, column, own });
    }

    /// The tally of each cell, in the order of the cells: that of the rows of all folds that are in the cell.
    pub fn tallies(&self) -> Result<List<Tally>, OutOfMemory>
        ensures { IfOk result
            (AllZip (AreFolded self.now.aggregator self.now.folds) self.now.cells) }
    {
        self.table.tallies(self.alloc, self.aggregator)
    }
}

// The cells, for contracts alone.
fn trace_of(cells: &[Cell]) -> Trace<Cell>
    ensures { result.items ≡ cells.now }
{
    let mut trace = Trace::new();
    for i in 0..cells.len() {
        trace = trace.and(&cells[i]);
    }
    trace
}
