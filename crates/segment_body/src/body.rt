//! The cells of a segment.
ghost use Rattle.std.specs.Prelude.{◌≡◌, ◌≢◌, ◌<◌, ◌≤◌, ◌+◌, ◌++◌, ◌∷◌, [], All, IfOk, OnOk, OnErr, IfSome, IfNone, IsOk, IsTrue, None, Some, ◌⊎◌, length, map, filter, flat_map, is_some, slice_get, slice_index_or};
ghost use Rattle.std.specs.List.{AllZip, list_all};
ghost use Rattle.std.specs.List.Sorted.{IsPermutation};
ghost use Rattle.olap_meaning.specs.Covering.{header_covers, just_covers};
ghost use Rattle.olap_meaning.specs.Legal.{rise};
ghost use Rattle.olap_meaning.specs.Texts.{CanBeShown};
ghost use Rattle.olap_meaning.specs.Values.{aggregate};
ghost use Rattle.segment_header.specs.Headers.{are_allowed, is_header, is_set};
ghost use Rattle.segment_body.specs.AllFolds.{fold_of, folded_numbers};
ghost use Rattle.segment_body.specs.BodyOf.{body_row_in, different_values, has_row, numbers_at};
ghost use Rattle.segment_body.specs.Folds.{body_row_at, body_row_within, numbers_where};
ghost use Rattle.segment_body.specs.Groups.{group};
ghost use Rattle.segment_body.specs.Narrowed.{IsNarrowed, narrowed_group};

use crate::folds::{fold_allowed, fold_in, fold_valued};
use crate::group::{Block, GroupTable};
use crate::narrow::narrow_values;
use crate::search::place_in;
use crate::tallies::CellTallies;
use fact_versions::Steps;
use measure_folds::Tally;
use olap_meaning::{
    Aggregator, Allowed, Cell, CellValue, ColumnId, Header, List, OutOfMemory, ROW_LIMIT, ValueId,
};
use std::alloc::Global;
use std::marker::Model;
use std::sync::ledger::Ledger;
use traces::Trace;

/// The rows of a load, summed up by their values on the header's columns.
#[derive(Drop)]
pub struct Body {
    alloc: Global,
    header: Header,
    aggregator: Aggregator,
    groups: GroupTable,
    parts: Trace<Block>,
}

impl Model for Body {
    ghost use Rattle.segment_body.specs.BodyOf.{BodyOf};

    ghost Value = { BodyOf };

    ghost use Rattle.segment_body.specs.Groups.{AreHeld, placed_in, rows_of};

    ghost view = { λ a. record { header = a.header; aggregator = a.aggregator; rows = rows_of a.groups (placed_in a.parts.items) } };

    ghost invariant = { λ a. AreHeld a.header a.aggregator a.groups (placed_in a.parts.items) (rows_of a.groups (placed_in a.parts.items)) };
}

impl Body {
    /// The body of no row.
    pub fn new(alloc: Global, header: Header, aggregator: Aggregator) -> Result<Body, OutOfMemory>
        requires { IsTrue (is_header header) }
        ensures { IfOk result
            (λ body. body ≡ record { header = header; aggregator = aggregator; rows = [] }) }
    {
        Ok(Body {
            alloc,
            header,
            aggregator,
            groups: GroupTable::new(alloc),
            parts: Trace::new(),
        })
    }

    /// Adds a row, by its values on the header's columns and the measure's number, where NULL is None.
    pub fn add(&mut self, values: &[ValueId], value: Option<i64>) -> Result<(), OutOfMemory>
        requires allowed { IsTrue (are_allowed self.old.header values.now) }
        requires room { length self.old.rows < ROW_LIMIT }
        ensures ok { OnOk result
            (self.new ≡ record self.old { rows = self.old.rows ++ (values.now, value) ∷ [] }) }
        ensures err { OnErr result (self.new ≡ self.old) }
    {
        self.add_placed(values, value)?;
        Ok(())
    }

    /// Adds a row, as `add` does. It answers the place of the row's group: that of its values among the different ones.
    pub fn add_placed(
        &mut self,
        values: &[ValueId],
        value: Option<i64>,
    ) -> Result<usize, OutOfMemory>
        requires allowed { IsTrue (are_allowed self.old.header values.now) }
        requires room { length self.old.rows < ROW_LIMIT }
        ensures ok { OnOk result
            (self.new ≡ record self.old { rows = self.old.rows ++ (values.now, value) ∷ [] }) }
        ensures place { IfOk result
            (λ place. slice_get (different_values self.new.rows) place ≡ Some values.now) }
        ensures err { OnErr result (self.new ≡ self.old) }
    {
        let place = self
            .groups
            .add_row(self.alloc, self.aggregator, values, value)?;
        let numbers = Trace::new().and(&value);
        self.parts = self.parts.and(&Block { place, numbers });
        Ok(place)
    }

    /// Adds a row that has the values of the group at a place. Its values are not looked up. Memory is taken only for a distinct
    /// count of a number.
    pub fn add_at(&mut self, place: usize, value: Option<i64>) -> Result<(), OutOfMemory>
        requires inside { place < length (different_values self.old.rows) }
        requires room { length self.old.rows < ROW_LIMIT }
        ensures ok { OnOk result
            (self.new
            ≡ record self.old {
              rows = self.old.rows
                  ++ (slice_index_or (different_values self.old.rows) place [], value) ∷ [];
            }) }
        ensures err { OnErr result (self.new ≡ self.old) }
        ensures no_memory { (self.old.aggregator ≢ Aggregator.DistinctCount) ⊎ (value ≡ None)
            → IsOk result }
    {
        self.groups.add_at(place, value)?;
        let numbers = Trace::new().and(&value);
        self.parts = self.parts.and(&Block { place, numbers });
        Ok(())
    }

    /// The values of the group at a place. It takes no memory.
    pub fn values_at(&self, place: usize) -> &[ValueId]
        requires { place < length (different_values self.now.rows) }
        ensures values { result.now ≡ slice_index_or (different_values self.now.rows) place [] }
        ensures allowed { IsTrue (are_allowed self.now.header result.now) }
    {
        self.groups.at(place).0
    }

    /// Adds the rows of a tally, which all have the same values on the header's columns. It takes memory where no row has
    /// these values yet.
    pub fn add_group(&mut self, values: &[ValueId], tally: &Tally) -> Result<(), OutOfMemory>
        requires adds_up { self.old.aggregator ≢ Aggregator.DistinctCount }
        requires same { tally.now.aggregator ≡ self.old.aggregator }
        requires allowed { IsTrue (are_allowed self.old.header values.now) }
        requires room { length self.old.rows + length tally.now.values ≤ ROW_LIMIT }
        ensures ok { OnOk result
            (self.new
            ≡ record self.old {
              rows = self.old.rows ++ map (λ number. (values.now, number)) tally.now.values;
            }) }
        ensures err { OnErr result (self.new ≡ self.old) }
    {
        if tally.rows() == 0 {
            return Ok(());
        }
        let place = self
            .groups
            .add_tally(self.alloc, self.aggregator, values, tally)?;
        let numbers = tally.numbers();
        self.parts = self.parts.and(&Block { place, numbers });
        Ok(())
    }

    /// The tally of the rows that have some values, None where there are none. It takes no memory.
    pub fn get(&self, values: &[ValueId]) -> Option<&Tally>
        ensures found { is_some result ≡ has_row self.now.rows values.now }
        ensures none { IfNone result (numbers_at self.now.rows values.now ≡ []) }
        ensures tally { IfSome result
            (λ t. t.now
            ≡ record {
              aggregator = self.now.aggregator;
              values = numbers_at self.now.rows values.now;
            }) }
    {
        match self.groups.place_of(values) {
            None => None,
            Some(place) => Some(self.groups.at(place).1),
        }
    }

    /// What a cell of the header's columns is worth over the rows. It takes no memory.
    pub fn value(&self, cell: &Cell) -> CellValue
        requires covered { IsTrue (just_covers self.now.header cell.now) }
        requires rising { IsTrue (rise (map (λ pair. pair.0) cell.now.at)) }
        ensures value { result
            ≡ aggregate self.now.aggregator
            (map (λ row. row.1) (filter (body_row_in self.now.header cell.now) self.now.rows)) }
        ensures shown { CanBeShown result }
    {
        match place_in(&self.groups, cell.at.as_slice()) {
            None => CellValue::Empty,
            Some(place) => self.groups.at(place).1.finish(),
        }
    }

    /// The tally of the rows that are in a cell, in some order. The cell's cube and measure are not looked at. It takes no
    /// memory.
    pub fn fold_where(&self, cell: &Cell) -> Tally
        requires { self.now.aggregator ≢ Aggregator.DistinctCount }
        ensures aggregator { result.aggregator ≡ self.now.aggregator }
        ensures rows { IsPermutation
            (numbers_where (body_row_in self.now.header cell.now) self.now.rows) result.values }
        ensures worth { aggregate result.aggregator result.values
            ≡ aggregate self.now.aggregator
            (numbers_where (body_row_in self.now.header cell.now) self.now.rows) }
    {
        fold_in(
            self.alloc,
            self.aggregator,
            self.header.columns.as_slice(),
            &self.groups,
            cell.at.as_slice(),
        )
    }

    /// The tally of the rows that are in a cell and have a value in one column, in some order. It takes no memory.
    pub fn fold_at(&self, cell: &Cell, column: ColumnId, value: ValueId) -> Tally
        requires { self.now.aggregator ≢ Aggregator.DistinctCount }
        ensures aggregator { result.aggregator ≡ self.now.aggregator }
        ensures rows { IsPermutation
            (numbers_where (body_row_at self.now.header cell.now column value) self.now.rows)
            result.values }
        ensures worth { aggregate result.aggregator result.values
            ≡ aggregate self.now.aggregator
            (numbers_where (body_row_at self.now.header cell.now column value) self.now.rows) }
    {
        fold_valued(
            self.alloc,
            self.aggregator,
            self.header.columns.as_slice(),
            &self.groups,
            cell.at.as_slice(),
            column,
            value,
        )
    }

    /// The tally of the rows that are in a cell and have in one column a value that is allowed, in some order. It takes no
    /// memory.
    pub fn fold_within(&self, cell: &Cell, column: ColumnId, own: &Allowed) -> Tally
        requires adds_up { self.now.aggregator ≢ Aggregator.DistinctCount }
        requires formed { IsTrue (is_set own.now) }
        ensures aggregator { result.aggregator ≡ self.now.aggregator }
        ensures rows { IsPermutation
            (numbers_where (body_row_within self.now.header cell.now column own.now) self.now.rows)
            result.values }
        ensures worth { aggregate result.aggregator result.values
            ≡ aggregate self.now.aggregator
            (numbers_where (body_row_within self.now.header cell.now column own.now) self.now.rows) }
    {
        fold_allowed(
            self.alloc,
            self.aggregator,
            self.header.columns.as_slice(),
            &self.groups,
            cell.at.as_slice(),
            column,
            own,
        )
    }

    /// Adds to the tally of each of some cells the rows that are in the cell and have in one column a value that is allowed,
    /// in one pass over the groups. It takes no memory.
    pub fn fold_into(&self, tallies: &mut CellTallies, column: ColumnId, own: &Allowed)
        requires aggregator { self.now.aggregator ≡ tallies.old.aggregator }
        requires formed { IsTrue (is_set own.now) }
        requires covered { IsTrue (list_all (header_covers self.now.header) tallies.old.cells) }
        requires room { All
            (λ cell. length
            (folded_numbers cell (tallies.old.folds ++ fold_of self.now column own.now ∷ []))
            ≤ ROW_LIMIT) tallies.old.cells }
        ensures { tallies.new
            ≡ record tallies.old {
              folds = tallies.old.folds ++ fold_of self.now column own.now ∷ [];
            } }
    {
        tallies.take(self, &self.groups, column, own);
    }

    // Adds the rows of a group of another header, where the own header allows its values. The buffer is for them: what it
    // holds before and after says nothing.
    fn add_narrowed(
        &mut self,
        wide: &Header,
        values: &[ValueId],
        tally: &Tally,
        buffer: &mut Vec<ValueId>,
    ) -> Result<(), OutOfMemory>
        requires adds_up { self.old.aggregator ≢ Aggregator.DistinctCount }
        requires same { tally.now.aggregator ≡ self.old.aggregator }
        requires room { length self.old.rows + length tally.now.values ≤ ROW_LIMIT }
        ensures { OnOk result
            (self.new
            ≡ record self.old {
              rows = self.old.rows
                  ++ narrowed_group wide.now self.old.header (group values.now tally.now);
            }) }
    {
        let columns = wide.columns.as_slice();
        let kept = narrow_values(columns, values, self.header.columns.as_slice(), buffer)?;
        if kept {
            self.add_group(buffer.as_slice(), tally)?;
        }
        Ok(())
    }

    // Adds the rows of groups of another header, where the own header allows their values. Each group is handed out once,
    // for a step.
    fn add_groups<L: Ledger>(
        &mut self,
        wide: &Header,
        groups: &GroupTable,
        steps: &mut Steps<L>,
    ) -> Result<(), OutOfMemory>
        requires adds_up { self.old.aggregator ≢ Aggregator.DistinctCount }
        requires alike { All
            (λ group. group.tally.aggregator ≡ self.old.aggregator) groups.now }
        requires room { length self.old.rows
            + length (flat_map (λ group. group.tally.values) groups.now)
            ≤ ROW_LIMIT }
        ensures ok { OnOk result
            (self.new
            ≡ record self.old {
              rows = self.old.rows
                  ++ flat_map (narrowed_group wide.now self.old.header) groups.now;
            }) }
        ensures cost { OnOk result (steps.new ≡ steps.old + length groups.now) }
        ensures at_least { steps.old ≤ steps.new }
        ensures at_most { steps.new ≤ steps.old + length groups.now }
    {
        let mut buffer = Vec::new(self.alloc);
        for i in 0..groups.len() {
            let group = groups.hand_out(i, steps);
            self.add_narrowed(wide, group.0, group.1, &mut buffer)?;
        }
        Ok(())
    }

    /// The rows that another header allows, with their values on its columns, in some order: none, where it has a column that
    /// these rows lack. Its cube and its measure are not looked at. A group that is handed out is a step; no row is handed
    /// out.
    pub fn narrowed<L: Ledger>(
        &self,
        header: Header,
        steps: &mut Steps<L>,
    ) -> Result<Body, OutOfMemory>
        requires adds_up { self.now.aggregator ≢ Aggregator.DistinctCount }
        requires formed { IsTrue (is_header header) }
        ensures body { IfOk result (IsNarrowed self.now header) }
        ensures cost { OnOk result
            (steps.new ≡ steps.old + length (different_values self.now.rows)) }
        ensures at_least { steps.old ≤ steps.new }
        ensures at_most { steps.new ≤ steps.old + length (different_values self.now.rows) }
    {
        let mut body = Body::new(self.alloc, header, self.aggregator)?;
        body.add_groups(&self.header, &self.groups, steps)?;
        Ok(body)
    }

    /// How many different lists of values the rows have. It takes no memory.
    pub fn groups(&self) -> u64
        ensures count { result ≡ length (different_values self.now.rows) }
        ensures limit { length self.now.rows ≤ ROW_LIMIT }
    {
        self.groups.len() as u64
    }

    /// Which cells the body holds. It takes no memory.
    pub fn header(&self) -> &Header
        ensures value { result.now ≡ self.now.header }
        ensures well_formed { IsTrue (is_header self.now.header) }
        ensures allowed { IsTrue
            (list_all (λ row. are_allowed self.now.header row.0) self.now.rows) }
    {
        &self.header
    }

    /// What the measure is summed up by. It takes no memory.
    pub fn aggregator(&self) -> Aggregator
        ensures { result ≡ self.now.aggregator }
    {
        self.aggregator
    }
}

fn may_be_shared<T: Send + Sync>() {}

// Threads may share bodies.
fn bodies_may_be_shared() {
    may_be_shared::<Body>();
}
