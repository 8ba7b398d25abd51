//! A part of a file, summed up.
ghost use Rattle.std.specs.Prelude.{◌≡◌, ◌≢◌, ◌+◌, ◌++◌, ◌≤◌, IsTrue, IfSome};
ghost use Rattle.std.specs.List.{All, flat_map, sum_by};
ghost use Rattle.olap_meaning.specs.Values.{aggregate};
ghost use Rattle.olap_meaning.specs.declared.Aggregator.TheVariants.{DistinctCount};
ghost use Rattle.olap_server.specs.Parted.{IsWithinFile};

use measure_folds::Tally;
use olap_meaning::{CellValue, ROW_LIMIT};
use std::marker::Model;

/// What is kept of a part's records.
#[derive(Drop)]
pub(crate) struct Part {
    tally: Tally,
    count: u64,
}

impl Model for Part {
    ghost use Rattle.olap_server.specs.Parted.{PartSum, IsWithinFile};

    ghost Value = { PartSum };

    ghost view = { λ p. record { aggregator = p.tally.aggregator; values = p.tally.values; count = p.count } };

    ghost invariant = { λ p. IsWithinFile p.tally.values p.count };
}

impl Part {
    /// The part of this many records, with the tally of those that are asked for.
    pub(crate) fn new(tally: Tally, count: u64) -> Part
        requires { IsWithinFile tally.values count }
        ensures { result
            ≡ record { aggregator = tally.aggregator; values = tally.values; count = count } }
    {
        Part { tally, count }
    }

    /// Adds a part after this one, where both together are not too large for a file, and says so.
    fn join(&mut self, other: &Part) -> bool
        requires one_aggregator { self.old.aggregator ≡ other.now.aggregator }
        requires no_distinct_count { self.old.aggregator ≢ DistinctCount }
        ensures joined { IsTrue result → self.new ≡ record {
          aggregator = self.old.aggregator;
          values = self.old.values ++ other.now.values;
          count = self.old.count + other.now.count;
        } }
        ensures aggregator { self.new.aggregator ≡ self.old.aggregator }
    {
        let count = self.count + other.count;
        if count > u64::from(ROW_LIMIT) {
            return false;
        }
        self.tally.merge(&other.tally);
        self.count = count;
        true
    }

    /// The aggregate of what is asked for.
    pub(crate) fn finish(&self) -> CellValue
        ensures value { result ≡ aggregate self.now.aggregator self.now.values }
        ensures small { self.now.count ≤ ROW_LIMIT }
    {
        self.tally.finish()
    }
}

/// The parts of a file side by side. None where they are too large for a file.
pub(crate) fn join_parts(first: Part, more: &[Part]) -> Option<Part>
    requires one_aggregator { All (λ part. first.aggregator ≡ part.aggregator) more.now }
    requires no_distinct_count { first.aggregator ≢ DistinctCount }
    ensures { IfSome result (λ whole. whole ≡ record {
      aggregator = first.aggregator;
      values = first.values ++ flat_map (λ part. part.values) more.now;
      count = first.count + sum_by (λ part. part.count) more.now;
    }) }
{
    let mut whole = first;
    for part in more {
        if !whole.join(part) {
            return None;
        }
    }
    Some(whole)
}
