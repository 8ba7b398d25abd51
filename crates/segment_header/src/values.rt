//! The values that a column allows.
ghost use Rattle.std.specs.Prelude.{◌≡◌, true, IsTrue};
ghost use Rattle.olap_meaning.specs.Covering.{among};
ghost use Rattle.olap_meaning.specs.Covering as covering;
ghost use Rattle.olap_meaning.specs.Legal.{rise};
ghost use Rattle.segment_header.specs.Headers as headers;

use olap_meaning::{Allowed, ValueId};

/// The place of a value in a set that leaves no value out from its first on, whatever the set is.
fn place_without_gaps(values: &[ValueId], value: ValueId) -> usize {
    match values.first() {
        Some(first) => value.0.wrapping_sub(first.0) as usize,
        None => 0,
    }
}

/// Whether a value stands at its place, were no value left out.
fn stands_at(values: &[ValueId], value: ValueId) -> bool
    ensures { result ≡ true → among values.now value ≡ true }
{
    match values.get(place_without_gaps(values, value)) {
        Some(found) => *found == value,
        None => false,
    }
}

/// Whether a value is one of a set: by its place, were no value left out, and else by binary search.
pub fn holds(values: &[ValueId], value: ValueId) -> bool
    requires { IsTrue (rise values.now) }
    ensures { result ≡ among values.now value }
{
    stands_at(values, value) || values.binary_search(&value).is_ok()
}

/// Whether a value is one of those that a column allows.
pub fn allows(allowed: &Allowed, value: ValueId) -> bool
    requires { IsTrue (headers.is_set allowed.now) }
    ensures { result ≡ covering.allows allowed.now value }
{
    match allowed {
        Allowed::Any => true,
        Allowed::Set(values) => holds(values.as_slice(), value),
    }
}

pub(crate) fn are_rising(values: &[ValueId]) -> bool
    ensures { result ≡ rise values.now }
{
    for i in 1..values.len() {
        if values[i - 1] >= values[i] {
            return false;
        }
    }
    true
}

/// Whether allowed values are any value, or a set that rises and is not empty.
pub fn is_set(allowed: &Allowed) -> bool
    ensures { result ≡ headers.is_set allowed.now }
{
    match allowed {
        Allowed::Any => true,
        Allowed::Set(values) => !values.is_empty() && are_rising(values.as_slice()),
    }
}
