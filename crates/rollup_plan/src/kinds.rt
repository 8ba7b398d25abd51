//! Kept loads by their kinds: those of one version with the same columns are of one kind.
ghost use Rattle.std.specs.Prelude.{◌≡◌, ◌<◌, ◌≤◌, All, Contains, IfOk, bytes_eq, filter, length, map, not};
ghost use Rattle.olap_meaning.specs.Rolled.{header_columns};
ghost use Rattle.cache_flush.specs.Loads.{kept_of};
ghost use Rattle.rollup_plan.specs.Picks as picks;
ghost use Rattle.rollup_plan.specs.Picks.{lent};

use cache_flush::Kept;
use olap_meaning::{Allowed, ColumnId, Header, OutOfMemory};
use std::alloc::Global;

// Whether as many columns are the same, whatever they allow.
fn are_same(columns: &[(ColumnId, Allowed)], others: &[(ColumnId, Allowed)]) -> bool
    requires { length columns.now ≡ length others.now }
    ensures { result ≡ bytes_eq (map (λ own. own.0) columns.now) (map (λ own. own.0) others.now) }
{
    let mut i = 0;
    while i < columns.len() {
        if columns[i].0 != others[i].0 {
            return false;
        }
        i += 1;
    }
    true
}

// Whether two headers have the same columns.
fn has_columns(one: &Header, other: &Header) -> bool
    ensures { result ≡ bytes_eq (header_columns one.now) (header_columns other.now) }
{
    if one.columns.len() != other.columns.len() {
        return false;
    }
    let columns = one.columns.as_slice();
    let others = other.columns.as_slice();
    are_same(columns, others)
}

// Whether a load is of the kind of another.
fn are_kin(one: &Kept, other: &Kept) -> bool
    ensures { result ≡ picks.are_kin (kept_of one.now) (kept_of other.now) }
{
    other.version == one.version && has_columns(other.body.header(), one.body.header())
}

/// One of some loads that has the newest version.
pub(crate) fn newest<'a>(kept: &[&'a Kept]) -> &'a Kept
    requires { 0 < length kept.now }
    ensures member { Contains (lent kept.now) (kept_of result.now) }
    ensures newest { All (λ one. one.version ≤ result.now.version) (lent kept.now) }
{
    let mut best = kept[0];
    for one in kept {
        if best.version < one.version {
            best = *one;
        }
    }
    best
}

/// Those of some loads that are of the kind of one.
pub(crate) fn kin_of<'a>(
    alloc: Global,
    kept: &[&'a Kept],
    first: &Kept,
) -> Result<Vec<&'a Kept>, OutOfMemory>
    ensures { IfOk result
        (λ kin. lent kin.items ≡ filter (picks.are_kin (kept_of first.now)) (lent kept.now)) }
{
    let mut kin = Vec::new(alloc);
    for one in kept {
        if are_kin(first, one) {
            kin.push(*one)?;
        }
    }
    Ok(kin)
}

/// Takes those out that are of the kind of one.
pub(crate) fn leave_kin(kept: &mut Vec<&Kept>, first: &Kept)
    ensures { lent kept.new.items
        ≡ filter (λ one. not (picks.are_kin (kept_of first.now) one)) (lent kept.old.items) }
{
    kept.retain(|one| !are_kin(first, one));
}
