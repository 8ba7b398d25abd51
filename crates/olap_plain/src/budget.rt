//! The groups of loads, and which load may be evicted over a budget of groups, as plain, slow code.
ghost use Rattle.std.specs.Prelude.{◌≡◌, ◌+◌, ◌-◌, ◌^◌, ◌++◌, ◌∷◌, [], if◌then◌else◌, length, min, is_some, nat_lt, unwrap_or, IfOk};
ghost use Rattle.std.specs.List.{list_all, list_any};
ghost use Rattle.olap_meaning.specs.Budget as budget;
ghost use Rattle.olap_meaning.specs.History as meaning;
ghost use Rattle.olap_plain.specs.Entries.{entries, entry_of};
ghost use Rattle.olap_plain.specs.GroupTests as tests;

use crate::PlainEntry;
use crate::catalogs::row_value;
use crate::history::{entry_at, kept, version};
use crate::offers::{allows_number, load_offer};
use olap_meaning::tables::{Catalog, Row, Setting};
use olap_meaning::{Allowed, ColumnId, CubeId, Header, List, OutOfMemory, Version};
use std::alloc::Global;

fn value_in(
    catalog: &Catalog,
    cube: CubeId,
    row: &Row,
    column: &(ColumnId, Allowed),
) -> Option<usize>
    ensures { result ≡ tests.value_in catalog.now cube row.now column.now }
{
    match row_value(catalog, cube, row, column.0) {
        None => None,
        Some(value) => {
            if allows_number(&column.1, value) {
                Some(value)
            } else {
                None
            }
        }
    }
}

fn has_value(catalog: &Catalog, cube: CubeId, row: &Row, column: &(ColumnId, Allowed)) -> bool
    ensures { result ≡ is_some (tests.value_in catalog.now cube row.now column.now) }
{
    value_in(catalog, cube, row, column).is_some()
}

fn has_values(catalog: &Catalog, cube: CubeId, row: &Row, columns: &[(ColumnId, Allowed)]) -> bool
    ensures { result
        ≡ list_all (λ c. is_some (tests.value_in catalog.now cube row.now c)) columns.now }
{
    columns.iter().all(|c| has_value(catalog, cube, row, c))
}

fn has_group(catalog: &Catalog, header: &Header, row: &Row) -> bool
    ensures { result ≡ is_some (budget.row_values catalog.now header.now row.now) }
{
    has_values(catalog, header.cube, row, header.columns.as_slice())
}

fn is_same_value(
    catalog: &Catalog,
    cube: CubeId,
    one: &Row,
    other: &Row,
    column: &(ColumnId, Allowed),
) -> bool
    ensures { result
        ≡ tests.both_are (tests.value_in catalog.now cube one.now column.now)
        (tests.value_in catalog.now cube other.now column.now) }
{
    let values = (
        value_in(catalog, cube, one, column),
        value_in(catalog, cube, other, column),
    );
    match values {
        (Some(value), Some(v)) => value == v,
        _ => false,
    }
}

fn are_same_values(
    catalog: &Catalog,
    cube: CubeId,
    one: &Row,
    other: &Row,
    columns: &[(ColumnId, Allowed)],
) -> bool
    ensures { result
        ≡ list_all
        (λ c. tests.both_are (tests.value_in catalog.now cube one.now c)
        (tests.value_in catalog.now cube other.now c)) columns.now }
{
    columns
        .iter()
        .all(|c| is_same_value(catalog, cube, one, other, c))
}

fn have_same(catalog: &Catalog, header: &Header, one: &Row, other: &Row) -> bool
    ensures { result ≡ tests.have_same catalog.now header.now one.now other.now }
{
    are_same_values(catalog, header.cube, one, other, header.columns.as_slice())
}

fn some_have_same(catalog: &Catalog, header: &Header, row: &Row, rows: &[Row]) -> bool
    ensures { result ≡ list_any (tests.have_same catalog.now header.now row.now) rows.now }
{
    rows.iter()
        .any(|other| have_same(catalog, header, row, other))
}

fn rows_in(entry: &PlainEntry, cube: CubeId) -> &[Row]
    ensures { result.now ≡ unwrap_or (meaning.appended cube (entry_of entry.now)) [] }
{
    match entry {
        PlainEntry::Append {
            who: _,
            cube: c,
            version: _,
            rows,
        } if *c == cube => rows.as_slice(),
        _ => &[],
    }
}

// The rows that one more entry adds to those of a version.
fn new_rows<'a>(
    before: &[PlainEntry],
    entry: &'a PlainEntry,
    cube: CubeId,
    last: Version,
) -> &'a [Row]
    ensures { meaning.rows_of (entries before.now ++ entry_of entry.now ∷ []) cube last
        ≡ meaning.rows_of (entries before.now) cube last ++ result.now }
{
    if last.0 as usize <= version(before, cube) {
        return &[];
    }
    rows_in(entry, cube)
}

fn version_has_same(
    catalog: &Catalog,
    header: &Header,
    last: Version,
    row: &Row,
    before: &[PlainEntry],
) -> bool
    ensures { result
        ≡ list_any (tests.have_same catalog.now header.now row.now)
        (meaning.rows_of (entries before.now) header.now.cube last) }
{
    let mut found = false;
    for i in 0..before.len() {
        let rows = new_rows(&before[..i], &before[i], header.cube, last);
        let here = some_have_same(catalog, header, row, rows);
        found = found || here;
    }
    found
}

fn adds_group(
    catalog: &Catalog,
    header: &Header,
    last: Version,
    before: &[PlainEntry],
    earlier: &[Row],
    row: &Row,
) -> bool
    ensures { result
        ≡ tests.adds_group catalog.now header.now
        (meaning.rows_of (entries before.now) header.now.cube last) earlier.now row.now }
{
    has_group(catalog, header, row)
        && !version_has_same(catalog, header, last, row, before)
        && !some_have_same(catalog, header, row, earlier)
}

// How many groups rows add to those of a version.
fn groups_added(
    catalog: &Catalog,
    header: &Header,
    last: Version,
    before: &[PlainEntry],
    rows: &[Row],
) -> usize
    ensures { length
        (tests.groups_of catalog.now header.now
        (meaning.rows_of (entries before.now) header.now.cube last ++ rows.now))
        ≡ length
        (tests.groups_of catalog.now header.now
        (meaning.rows_of (entries before.now) header.now.cube last))
        + result }
{
    let mut count = 0;
    for i in 0..rows.len() {
        let new = adds_group(catalog, header, last, before, &rows[..i], &rows[i]);
        if new {
            count += 1;
        }
    }
    count
}

fn count_groups(catalog: &Catalog, header: &Header, last: Version, history: &[PlainEntry]) -> u128
    ensures { result
        ≡ length
        (tests.groups_of catalog.now header.now
        (meaning.rows_of (entries history.now) header.now.cube last)) }
{
    let mut count = 0u128;
    for i in 0..history.len() {
        let rows = new_rows(&history[..i], &history[i], header.cube, last);
        count += groups_added(catalog, header, last, &history[..i], rows) as u128;
    }
    count
}

/// How many groups a load has.
pub fn group_count(catalog: &Catalog, history: &[PlainEntry], j: u64) -> u128
    ensures { result ≡ budget.group_count catalog.now (entries history.now) j }
{
    match load_offer(history, j) {
        None => 0,
        Some(offer) => count_groups(catalog, offer.header, offer.version, history),
    }
}

fn kept_group_count(catalog: &Catalog, history: &[PlainEntry], j: u64) -> u128
    ensures { result
        ≡ if meaning.kept (entries history.now) j
        then budget.group_count catalog.now (entries history.now) j
        else 0 }
{
    if kept(history, j) {
        group_count(catalog, history, j)
    } else {
        0
    }
}

/// How many groups the kept loads have together, up to what the number can hold.
pub fn kept_groups(catalog: &Catalog, history: &[PlainEntry]) -> u128
    ensures { result
        ≡ min (budget.kept_groups catalog.now (entries history.now)) (2 ^ 128 - 1) }
{
    let mut count = 0u128;
    for i in 0..history.len() {
        let here = kept_group_count(catalog, history, i as u64 + 1);
        count = count.saturating_add(here);
    }
    count
}

/// Whether the kept loads have more groups than the budget.
pub fn is_above(setting: &Setting, history: &[PlainEntry]) -> bool
    ensures { result
        ≡ nat_lt setting.now.budget
        (budget.kept_groups setting.now.catalog (entries history.now)) }
{
    (setting.budget as u128) < kept_groups(&setting.catalog, history)
}

/// The kept loads, rising.
pub fn kept_loads(alloc: Global, history: &[PlainEntry]) -> Result<List<u64>, OutOfMemory>
    ensures { IfOk result (λ loads. loads ≡ meaning.kept_loads (entries history.now)) }
{
    let mut loads = List::new(alloc);
    for i in 0..history.len() {
        let found = kept(history, i as u64 + 1);
        if found {
            loads.push(i as u64 + 1)?;
        }
    }
    Ok(loads)
}

/// The oldest kept load.
pub fn oldest_kept(history: &[PlainEntry]) -> Option<u64>
    ensures { result ≡ budget.oldest_kept (entries history.now) }
{
    for i in 0..history.len() {
        let found = kept(history, i as u64 + 1);
        if found {
            return Some(i as u64 + 1);
        }
    }
    None
}

fn lets_evict(entry: &PlainEntry) -> bool
    ensures { result ≡ budget.lets_evict (entry_of entry.now) }
{
    match entry {
        PlainEntry::Evict { load: _ } => true,
        PlainEntry::Answer { who: _, cells: _ } => true,
        _ => false,
    }
}

/// Whether the last entry lets loads be evicted.
pub fn may_evict(history: &[PlainEntry]) -> bool
    ensures { result ≡ budget.may_evict (entries history.now) }
{
    match entry_at(history, history.len() as u64) {
        None => false,
        Some(entry) => lets_evict(entry),
    }
}
