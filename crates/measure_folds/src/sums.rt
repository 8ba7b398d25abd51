//! Sums and averages of numbers.
ghost use Rattle.std.specs.Prelude.{◌≡◌, ◌<◌, ◌≤◌, ◌+◌, ◌*◌, ◌^◌, ◌++◌, ◌∷◌, [], length, ℤ, pos, neg_ℤ, ◌≤ℤ◌};
ghost use Rattle.std.specs.Int.RustNames.{unsigned_abs};
ghost use Rattle.olap_meaning.specs.Texts.{CanBeShown};
ghost use Rattle.olap_meaning.specs.Values.{aggregate_known, rounded};

use olap_meaning::{Aggregator, CellValue, ROW_LIMIT};
use std::marker::Model;
use traces::Trace;

/// The sum of numbers, with how many they are.
#[derive(Drop)]
pub(crate) struct Sums {
    known: u32,
    sum: i128,
    of: Trace<i64>,
}

impl Model for Sums {
    ghost use Rattle.std.specs.Prelude.{List, ℤ};
    ghost use Rattle.measure_folds.specs.Kept.{AreSummed};

    ghost Value = { List ℤ };

    ghost view = { λ a. a.of.items };

    ghost invariant = { λ a. AreSummed a.known a.sum a.of.items };
}

impl Sums {
    /// The sum of no number.
    pub(crate) fn new() -> Sums
        ensures { result ≡ [] }
    {
        Sums {
            known: 0,
            sum: 0,
            of: Trace::new(),
        }
    }

    /// Adds a number.
    pub(crate) fn add(&mut self, number: i64)
        requires { length self.old < ROW_LIMIT }
        ensures { self.new ≡ self.old ++ number ∷ [] }
    {
        self.known += 1;
        self.sum += i128::from(number);
        self.of = self.of.and(&number);
    }

    /// Adds the numbers of another sum.
    pub(crate) fn merge(&mut self, other: &Sums)
        requires { length self.old + length other.now ≤ ROW_LIMIT }
        ensures { self.new ≡ self.old ++ other.now }
    {
        self.known += other.known;
        self.sum += other.sum;
        self.of = self.of.joined(&other.of);
    }

    /// The sum, empty where there is no number.
    pub(crate) fn sum(&self) -> CellValue
        requires { length self.now ≤ ROW_LIMIT }
        ensures value { result ≡ aggregate_known Aggregator.Sum self.now }
        ensures shown { CanBeShown result }
    {
        if self.known == 0 {
            CellValue::Empty
        } else {
            CellValue::Whole(self.sum)
        }
    }

    /// The average in hundredths, empty where there is no number.
    pub(crate) fn average(&self) -> CellValue
        requires { length self.now ≤ ROW_LIMIT }
        ensures value { result ≡ aggregate_known Aggregator.Avg self.now }
        ensures shown { CanBeShown result }
    {
        if self.known == 0 {
            return CellValue::Empty;
        }
        CellValue::Hundredths(rounded_quotient(100 * self.sum, self.known))
    }
}

/// A quotient, rounded to the nearest whole number, and half away from zero.
fn rounded_quotient(dividend: i128, divisor: u32) -> i128
    requires some { 0 < divisor }
    requires low { neg_ℤ (pos (2 ^ 100)) ≤ℤ dividend }
    requires high { dividend ≤ℤ pos (2 ^ 100) }
    ensures value { result ≡ rounded dividend divisor }
    ensures size { unsigned_abs result ≤ 2 ^ 100 }
{
    let divisor = u128::from(divisor);
    let quotient = ((2 * dividend.unsigned_abs() + divisor) / (2 * divisor)) as i128;
    if dividend < 0 { -quotient } else { quotient }
}
