//! One measure summed up over fact rows.
ghost use Rattle.std.specs.Prelude.{◌≡◌, ◌≢◌, ◌<◌, ◌≤◌, ◌+◌, ◌⊎◌, ◌++◌, ◌∷◌, [], length, None, OnOk, OnErr, IsOk};
ghost use Rattle.olap_meaning.specs.Texts.{CanBeShown};
ghost use Rattle.olap_meaning.specs.Values.{aggregate};

use crate::state::{State, add_value, merge_state, new_state, worth};
use olap_meaning::{Aggregator, CellValue, OutOfMemory, ROW_LIMIT};
use std::alloc::Global;
use std::marker::Model;
use traces::Trace;

/// One measure over fact rows: what its aggregator needs of them, in an amount of memory that does not grow with
/// the rows, except for a distinct count, which keeps each of its values once.
#[derive(Drop)]
pub struct Tally {
    rows: u32,
    state: State,
    of: Trace<Option<i64>>,
}

impl Model for Tally {
    ghost use Rattle.measure_folds.specs.Tallied.{Tallied};
    ghost use Rattle.measure_folds.specs.Kept.{AreRows};

    ghost Value = { Tallied };

    ghost use Rattle.measure_folds.specs.StateOf.{aggregator_of, numbers_of};

    ghost view = { λ a. record { aggregator = aggregator_of a.state; values = a.of.items } };

    ghost invariant = { λ a. AreRows a.rows (numbers_of a.state) a.of.items };
}

impl Tally {
    /// The tally of no rows. It takes no memory.
    pub fn new(alloc: Global, aggregator: Aggregator) -> Tally
        ensures { result ≡ record { aggregator = aggregator; values = [] } }
    {
        Tally {
            rows: 0,
            state: new_state(alloc, aggregator),
            of: Trace::new(),
        }
    }

    /// How many rows it holds.
    pub fn rows(&self) -> u32
        ensures { result ≡ length self.now.values }
    {
        self.rows
    }

    /// The values of its rows, in their order. Contracts alone see them.
    pub fn numbers(&self) -> Trace<Option<i64>>
        ensures { result.items ≡ self.now.values }
    {
        Trace::new().joined(&self.of)
    }

    /// Adds one row, by its value: NULL is None. Memory is taken only for a distinct count of a value that is not NULL.
    pub fn step(&mut self, value: Option<i64>) -> Result<(), OutOfMemory>
        requires { length self.old.values < ROW_LIMIT }
        ensures ok { OnOk result
            (self.new ≡ record self.old { values = self.old.values ++ value ∷ [] }) }
        ensures err { OnErr result (self.new ≡ self.old) }
        ensures no_memory { (self.old.aggregator ≢ Aggregator.DistinctCount) ⊎ (value ≡ None)
            → IsOk result }
    {
        add_value(&mut self.state, value)?;
        self.rows += 1;
        self.of = self.of.and(&value);
        Ok(())
    }

    /// Adds the rows of another tally, after its own. It takes no memory.
    pub fn merge(&mut self, other: &Tally)
        requires one_aggregator { self.old.aggregator ≡ other.now.aggregator }
        requires no_distinct_count { self.old.aggregator ≢ Aggregator.DistinctCount }
        requires room { length self.old.values + length other.now.values ≤ ROW_LIMIT }
        ensures { self.new ≡ record self.old { values = self.old.values ++ other.now.values } }
    {
        merge_state(&mut self.state, &other.state);
        self.rows += other.rows;
        self.of = self.of.joined(&other.of);
    }

    /// The aggregate of the rows. It takes no memory.
    pub fn finish(&self) -> CellValue
        ensures value { result ≡ aggregate self.now.aggregator self.now.values }
        ensures shown { CanBeShown result }
    {
        if self.rows == 0 {
            return CellValue::Empty;
        }
        worth(&self.state)
    }
}
