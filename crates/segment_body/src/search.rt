//! Where the group of a cell stands.
ghost use Rattle.std.specs.Prelude.{◌≡◌, bytes_eq, map, position};

use crate::group::GroupTable;
use olap_meaning::{ColumnId, ValueId};

/// Whether values are those of a cell's pairs, in their order.
fn are_values_of(at: &[(ColumnId, ValueId)], values: &[ValueId]) -> bool
    ensures { result ≡ bytes_eq (map (λ pair. pair.1) at.now) values.now }
{
    if at.len() != values.len() {
        return false;
    }
    let mut i = 0;
    while i < values.len() {
        if at[i].1 != values[i] {
            return false;
        }
        i += 1;
    }
    true
}

/// The place of the group that has the values of a cell's pairs, by a walk over all groups.
fn walk_to(groups: &GroupTable, at: &[(ColumnId, ValueId)]) -> Option<usize>
    ensures { result
        ≡ position (λ group. bytes_eq (map (λ pair. pair.1) at.now) group.values) groups.now }
{
    for i in 0..groups.len() {
        let group = groups.at(i);
        if are_values_of(at, group.0) {
            return Some(i);
        }
    }
    None
}

/// The most columns of a cell whose values are looked up by their hash.
const WIDTH: usize = 64;

/// The place of the group that has the values of a cell's pairs, in their order. It takes no memory: the values are put
/// beside each other on the stack, and a cell of more columns is found by a walk.
pub(crate) fn place_in(groups: &GroupTable, at: &[(ColumnId, ValueId)]) -> Option<usize>
    ensures { result
        ≡ position (λ group. bytes_eq (map (λ pair. pair.1) at.now) group.values) groups.now }
{
    if at.len() > WIDTH {
        return walk_to(groups, at);
    }
    let mut values = [ValueId(0); WIDTH];
    for i in 0..at.len() {
        values[i] = at[i].1;
    }
    groups.place_of(&values[..at.len()])
}
