//! Counts of numbers.
ghost use Rattle.std.specs.Prelude.{◌≡◌, ◌<◌, ◌≤◌, ◌+◌, ◌++◌, ◌∷◌, [], length};
ghost use Rattle.olap_meaning.specs.Texts.{CanBeShown};
ghost use Rattle.olap_meaning.specs.Values.{aggregate_known};

use olap_meaning::{Aggregator, CellValue, ROW_LIMIT};
use std::marker::Model;
use traces::Trace;

/// How many numbers there are.
#[derive(Drop)]
pub(crate) struct Count {
    known: u32,
    of: Trace<i64>,
}

impl Model for Count {
    ghost use Rattle.std.specs.Prelude.{List, ℤ, ◌≡◌, length};

    ghost Value = { List ℤ };

    ghost view = { λ a. a.of.items };

    ghost invariant = { λ a. a.known ≡ length a.of.items };
}

impl Count {
    /// The count of no number.
    pub(crate) fn new() -> Count
        ensures { result ≡ [] }
    {
        Count {
            known: 0,
            of: Trace::new(),
        }
    }

    /// Adds a number.
    pub(crate) fn add(&mut self, number: i64)
        requires { length self.old < ROW_LIMIT }
        ensures { self.new ≡ self.old ++ number ∷ [] }
    {
        self.known += 1;
        self.of = self.of.and(&number);
    }

    /// Adds the numbers of another count.
    pub(crate) fn merge(&mut self, other: &Count)
        requires { length self.old + length other.now ≤ ROW_LIMIT }
        ensures { self.new ≡ self.old ++ other.now }
    {
        self.known += other.known;
        self.of = self.of.joined(&other.of);
    }

    /// The count.
    pub(crate) fn count(&self) -> CellValue
        ensures value { result ≡ aggregate_known Aggregator.Count self.now }
        ensures shown { CanBeShown result }
    {
        CellValue::Whole(i128::from(self.known))
    }
}
