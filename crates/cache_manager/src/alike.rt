//! Cells that are alike.
ghost use Rattle.std.specs.Prelude.{◌≡◌, bytes_eq, map};
ghost use Rattle.history_core.specs.Groups as groups;

use olap_meaning::{Cell, ColumnId, ValueId};

fn have_same_columns(one: &[(ColumnId, ValueId)], other: &[(ColumnId, ValueId)]) -> bool
    ensures { result ≡ bytes_eq (map (λ pair. pair.0) one.now) (map (λ pair. pair.0) other.now) }
{
    if one.len() != other.len() {
        return false;
    }
    for i in 0..one.len() {
        if one[i].0 != other[i].0 {
            return false;
        }
    }
    true
}

/// Whether two cells may share a load: they have one cube, one measure and the same columns.
pub(crate) fn are_alike(one: &Cell, other: &Cell) -> bool
    ensures { result ≡ groups.alike one.now other.now }
{
    one.cube == other.cube
        && one.measure == other.measure
        && have_same_columns(one.at.as_slice(), other.at.as_slice())
}
