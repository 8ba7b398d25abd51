//! The least or the greatest of numbers.
ghost use Rattle.std.specs.Prelude.{◌≡◌, ◌++◌, ◌∷◌, []};
ghost use Rattle.olap_meaning.specs.Texts.{CanBeShown};
ghost use Rattle.olap_meaning.specs.Values.{aggregate_known};
ghost use Rattle.measure_folds.specs.Kept.{extreme_aggregator, further_of};

use olap_meaning::CellValue;
use std::marker::Model;
use traces::Trace;

/// The greatest of numbers, or the least.
#[derive(Drop)]
pub(crate) struct Extreme {
    greatest: bool,
    // None where there is no number.
    found: Option<i64>,
    of: Trace<i64>,
}

impl Model for Extreme {
    ghost use Rattle.std.specs.Prelude.{◌≡◌};
    ghost use Rattle.measure_folds.specs.Kept.{ExtremeOf, extreme_of};

    ghost Value = { ExtremeOf };

    ghost view = { λ a. record { is_greatest = a.greatest; numbers = a.of.items } };

    ghost invariant = { λ a. a.found ≡ extreme_of a.greatest a.of.items };
}

impl Extreme {
    /// The greatest, or else the least, of no number.
    pub(crate) fn new(greatest: bool) -> Extreme
        ensures { result ≡ record { is_greatest = greatest; numbers = [] } }
    {
        Extreme {
            greatest,
            found: None,
            of: Trace::new(),
        }
    }

    /// Adds a number.
    pub(crate) fn add(&mut self, number: i64)
        ensures { self.new ≡ record self.old { numbers = self.old.numbers ++ number ∷ [] } }
    {
        self.found = further(self.greatest, self.found, Some(number));
        self.of = self.of.and(&number);
    }

    /// Adds the numbers of another of its kind.
    pub(crate) fn merge(&mut self, other: &Extreme)
        requires { self.old.is_greatest ≡ other.now.is_greatest }
        ensures { self.new ≡ record self.old { numbers = self.old.numbers ++ other.now.numbers } }
    {
        self.found = further(self.greatest, self.found, other.found);
        self.of = self.of.joined(&other.of);
    }

    /// The greatest or the least, empty where there is no number.
    pub(crate) fn value(&self) -> CellValue
        ensures value { result
            ≡ aggregate_known (extreme_aggregator self.now.is_greatest) self.now.numbers }
        ensures shown { CanBeShown result }
    {
        match self.found {
            Some(number) => CellValue::Whole(i128::from(number)),
            None => CellValue::Empty,
        }
    }
}

/// The greater or the lesser of two numbers, of which either may be missing.
fn further(greatest: bool, one: Option<i64>, other: Option<i64>) -> Option<i64>
    ensures { result ≡ further_of greatest one other }
{
    match (one, other) {
        (Some(m), Some(n)) => Some(if greatest { n.max(m) } else { m.min(n) }),
        (Some(m), None) => Some(m),
        (None, _) => other,
    }
}
