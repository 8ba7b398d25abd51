//! Legal steps as plain, slow code: whether an entry may come next, by its kind. Tests compare faster bodies with it.
ghost use Rattle.std.specs.Prelude.{◌≡◌, ◌≤◌, ◌<◌, ◌+◌, ◌^◌, ◌&&◌, ◌==◌, ◌↔◌, not, length, map, filter, sum_by, nat_lt, nat_le, true, is_none, is_some, IsTrue, Option, Some, None, List, ℕ};
ghost use Rattle.std.specs.List.{list_any, list_all, zip, AllByRecursion as Each};
ghost use Rattle.olap_meaning.specs.declared.TheConstants.{VERSION_LIMIT};
ghost use Rattle.olap_meaning.specs.Budget as budget;
ghost use Rattle.olap_meaning.specs.Covering as covering;
ghost use Rattle.olap_meaning.specs.History as meaning;
ghost use Rattle.olap_meaning.specs.Worth as worth;
ghost use Rattle.olap_meaning.specs.Legal as legal;
ghost use Rattle.olap_meaning.specs.Catalog.{fact_columns, table_cube as cube_of_table};
ghost use Rattle.olap_plain.specs.Entries.{entries, entry_of};
ghost use Rattle.olap_plain.specs.StepTests.{agg_test, append_test, evict_test, start_test};

use crate::PlainEntry;
use crate::budget::{is_above, may_evict, oldest_kept};
use crate::catalogs::{fact_column_count, records, table_cube, value_count};
use crate::history::{awaited_load, flying, just_covers, starter, version, version_at};
use crate::sources::{has_source, is_source};
use olap_meaning::tables::{Catalog, Cube, Row, Setting};
use olap_meaning::{
    Cell, CellSource, ColumnId, CubeId, Header, LeafId, List, Region, RegionBox, RegionDim,
    VERSION_LIMIT, ValueId, Version, Who,
};

fn caller(entry: &PlainEntry) -> Option<Who>
    ensures { result ≡ legal.caller (entry_of entry.now) }
{
    match entry {
        PlainEntry::Append {
            who,
            cube: _,
            version: _,
            rows: _,
        } => Some(*who),
        PlainEntry::Agg {
            who,
            table: _,
            version: _,
        } => Some(*who),
        PlainEntry::Flush { who, region: _ } => Some(*who),
        PlainEntry::Answer { who, cells: _ } => Some(*who),
        PlainEntry::Saw { who } => Some(*who),
        _ => None,
    }
}

fn is_call_of(seat: u32, entry: &PlainEntry) -> bool
    ensures { result ≡ legal.is_call_of seat (entry_of entry.now) }
{
    match caller(entry) {
        None => false,
        Some(who) => who.seat == seat,
    }
}

fn is_call_below(call: u64, entry: &PlainEntry) -> bool
    ensures { result ≡ legal.is_call_below call (entry_of entry.now) }
{
    match caller(entry) {
        None => false,
        Some(who) => who.call < call,
    }
}

fn calls_below(history: &[PlainEntry], who: Who) -> bool
    ensures { result
        ≡ list_all
        (λ e. legal.is_call_below who.call (entry_of e))
        (filter (λ e. legal.is_call_of who.seat (entry_of e)) history.now) }
{
    history
        .iter()
        .filter(|e| is_call_of(who.seat, e))
        .all(|e| is_call_below(who.call, e))
}

/// Whether a call is the next of its seat.
pub fn is_next_call(history: &[PlainEntry], who: Who) -> bool
    ensures { result ≡ legal.is_next_call (entries history.now) who }
{
    calls_below(history, who)
}

fn rows_added(entry: &PlainEntry) -> usize
    ensures { result ≡ legal.rows_added (entry_of entry.now) }
{
    match entry {
        PlainEntry::Append {
            who: _,
            cube: _,
            version: _,
            rows,
        } => rows.len(),
        _ => 0,
    }
}

/// How many rows are held over all cubes.
pub fn rows_held(history: &[PlainEntry]) -> u128
    ensures held { result ≡ legal.rows_held (entries history.now) }
    ensures within { result < 2 ^ 127 }
{
    let mut held = 0u128;
    for i in 0..history.len() {
        held += rows_added(&history[i]) as u128;
    }
    held
}

fn is_leaf(catalog: &Catalog, dimension: u32, leaf: LeafId) -> bool
    ensures { result ≡ legal.is_leaf catalog.now dimension leaf }
{
    (leaf.0 as usize) < records(catalog, dimension).len()
}

fn are_leaves(catalog: &Catalog, dimensions: &[u32], leaves: &[LeafId]) -> bool
    ensures { result
        ≡ list_all
        (λ pair. legal.is_leaf catalog.now pair.0 pair.1) (zip dimensions.now leaves.now) }
{
    dimensions
        .iter()
        .zip(leaves.iter())
        .all(|(dimension, leaf)| is_leaf(catalog, *dimension, *leaf))
}

fn is_row_of(catalog: &Catalog, cube: &Cube, row: &Row) -> bool
    ensures { result
        ≡ ((length row.now.leaves == length cube.now.dimensions)
        && list_all
        (λ pair. legal.is_leaf catalog.now pair.0 pair.1) (zip cube.now.dimensions row.now.leaves)
        && (length row.now.values == length (fact_columns cube.now))) }
{
    row.leaves.len() == cube.dimensions.len()
        && are_leaves(catalog, cube.dimensions.as_slice(), row.leaves.as_slice())
        && row.values.len() == fact_column_count(cube)
}

/// Whether a row is one of a cube.
pub fn is_row(catalog: &Catalog, cube: CubeId, row: &Row) -> bool
    ensures { result ≡ legal.is_row catalog.now cube row.now }
{
    match catalog.cubes.get(cube.0 as usize) {
        None => false,
        Some(c) => is_row_of(catalog, c, row),
    }
}

fn are_rows(catalog: &Catalog, cube: CubeId, rows: &[Row]) -> bool
    ensures { result ≡ list_all (legal.is_row catalog.now cube) rows.now }
{
    rows.iter().all(|row| is_row(catalog, cube, row))
}

fn is_value(catalog: &Catalog, column: ColumnId, value: ValueId) -> bool
    ensures { result ≡ legal.is_value catalog.now column value }
{
    (value.0 as usize) < value_count(catalog, column)
}

fn is_column(catalog: &Catalog, column: ColumnId) -> bool
    ensures { result ≡ nat_lt column (length catalog.now.columns) }
{
    (column.0 as usize) < catalog.columns.len()
}

fn is_value_all(catalog: &Catalog, column: ColumnId, values: &[ValueId]) -> bool
    ensures { result ≡ list_all (legal.is_value catalog.now column) values.now }
{
    values.iter().all(|value| is_value(catalog, column, *value))
}

fn is_box(catalog: &Catalog, region_box: &RegionBox) -> bool
    ensures { result ≡ legal.is_box catalog.now region_box.now }
{
    region_box.columns.as_slice().iter().all(|c| is_column(catalog, c.0)
        && is_value_all(catalog, c.0, c.1.as_slice()))
}

fn are_boxes(catalog: &Catalog, boxes: &[RegionBox]) -> bool
    ensures { result ≡ list_all (legal.is_box catalog.now) boxes.now }
{
    boxes.iter().all(|b| is_box(catalog, b))
}

fn is_measures(dimension: RegionDim) -> bool
    ensures { result ≡ legal.is_measures dimension }
{
    match dimension {
        RegionDim::Measures => true,
        RegionDim::Dimension(_) => false,
    }
}

fn names_measures(dims: &[RegionDim]) -> bool
    ensures { result ≡ list_any legal.is_measures dims.now }
{
    dims.iter().any(|d| is_measures(*d))
}

fn is_cube(catalog: &Catalog, cube: CubeId) -> bool
    ensures { result ≡ nat_lt cube (length catalog.now.cubes) }
{
    (cube.0 as usize) < catalog.cubes.len()
}

/// Whether a region can be flushed.
pub fn is_flushable(catalog: &Catalog, region: &Region) -> bool
    ensures { result ≡ legal.is_flushable catalog.now region.now }
{
    is_cube(catalog, region.cube)
        && names_measures(region.dims.as_slice())
        && are_boxes(catalog, region.boxes.as_slice())
}

fn has_measure(catalog: &Catalog, cell: &Cell) -> bool
    ensures { result
        ≡ meaning.is_some_and (λ measure. true) (worth.measure_of catalog.now cell.now) }
{
    match catalog.cubes.get(cell.cube.0 as usize) {
        None => false,
        Some(c) => c.measures.get(cell.measure.0 as usize).is_some(),
    }
}

fn are_values(catalog: &Catalog, at: &[(ColumnId, ValueId)]) -> bool
    ensures { result
        ≡ list_all
        (λ pair. nat_lt pair.0 (length catalog.now.columns)
        && legal.is_value catalog.now pair.0 pair.1) at.now }
{
    at.iter().all(|pair| is_column(catalog, pair.0) && is_value(catalog, pair.0, pair.1))
}

fn columns_above<T>(column: ColumnId, pairs: &[(ColumnId, T)]) -> bool
    ensures { result ≡ list_all (nat_lt column) (map (λ pair. pair.0) pairs.now) }
{
    pairs.iter().map(|pair| pair.0).all(|other| column < other)
}

fn columns_rise<T>(pairs: &[(ColumnId, T)]) -> bool
    ensures { result ≡ legal.rise (map (λ pair. pair.0) pairs.now) }
{
    match pairs {
        [] => true,
        [first, rest @ ..] => columns_above(first.0, rest) && columns_rise(rest),
    }
}

fn is_among(dimensions: &[u32], dimension: u32) -> bool
    ensures { result ≡ covering.among dimensions.now dimension }
{
    dimensions.iter().any(|d| *d == dimension)
}

fn is_column_of(catalog: &Catalog, dimensions: &[u32], column: ColumnId) -> bool
    ensures { result ≡ legal.is_column_of catalog.now dimensions.now column }
{
    match catalog.columns.get(column.0 as usize) {
        None => false,
        Some(c) => is_among(dimensions, c.dimension),
    }
}

fn are_columns_of(catalog: &Catalog, dimensions: &[u32], at: &[(ColumnId, ValueId)]) -> bool
    ensures { result
        ≡ list_all (λ pair. legal.is_column_of catalog.now dimensions.now pair.0) at.now }
{
    at.iter()
        .all(|pair| is_column_of(catalog, dimensions, pair.0))
}

fn has_own_columns(catalog: &Catalog, cell: &Cell) -> bool
    ensures { result ≡ legal.has_own_columns catalog.now cell.now }
{
    match catalog.cubes.get(cell.cube.0 as usize) {
        None => false,
        Some(c) => are_columns_of(catalog, c.dimensions.as_slice(), cell.at.as_slice()),
    }
}

/// Whether a cell is one of the catalog.
pub fn is_cell(catalog: &Catalog, cell: &Cell) -> bool
    ensures { result ≡ legal.is_cell catalog.now cell.now }
{
    has_measure(catalog, cell)
        && are_values(catalog, cell.at.as_slice())
        && columns_rise(cell.at.as_slice())
        && has_own_columns(catalog, cell)
}

fn is_next_version(history: &[PlainEntry], cube: CubeId, next: Version) -> bool
    ensures { result ≡ (next == meaning.version (entries history.now) cube + 1) }
{
    next.0 as u128 == version(history, cube) as u128 + 1
}

fn is_version_within(next: Version) -> bool
    ensures { result ≡ nat_le next VERSION_LIMIT }
{
    next.0 <= VERSION_LIMIT
}

fn has_room(setting: &Setting, history: &[PlainEntry], rows: &[Row]) -> bool
    ensures { result
        ≡ nat_le (legal.rows_held (entries history.now) + length rows.now) setting.now.row_limit }
{
    rows_held(history) + rows.len() as u128 <= setting.row_limit as u128
}

fn append_passes(
    setting: &Setting,
    history: &[PlainEntry],
    who: Who,
    cube: CubeId,
    next: Version,
    rows: &List<Row>,
) -> bool
    ensures { result ≡ append_test setting.now (entries history.now) who cube next rows.now }
{
    is_next_call(history, who)
        && is_cube(&setting.catalog, cube)
        && is_next_version(history, cube, next)
        && is_version_within(next)
        && are_rows(&setting.catalog, cube, rows.as_slice())
        && has_room(setting, history, rows.as_slice())
}

fn is_legal_append(
    setting: &Setting,
    history: &[PlainEntry],
    who: Who,
    cube: CubeId,
    next: Version,
    rows: &List<Row>,
) -> bool
    ensures { IsTrue result
        ↔ legal.IsLegalAppend setting.now (entries history.now) who cube next rows.now }
{
    append_passes(setting, history, who, cube, next, rows)
}

fn has_reached(history: &[PlainEntry], cube: usize, reached: Version) -> bool
    ensures { result ≡ nat_le reached (meaning.version (entries history.now) cube) }
{
    reached.0 as usize <= version_at(history, cube)
}

fn is_built(setting: &Setting, history: &[PlainEntry], table: u32, built: Version) -> bool
    ensures { result
        ≡ meaning.is_some_and
        (λ cube. nat_le built (meaning.version (entries history.now) cube))
        (cube_of_table setting.now.catalog table) }
{
    match table_cube(&setting.catalog, table) {
        None => false,
        Some(cube) => has_reached(history, cube, built),
    }
}

fn agg_passes(
    setting: &Setting,
    history: &[PlainEntry],
    who: Who,
    table: u32,
    built: Version,
) -> bool
    ensures { result ≡ agg_test setting.now (entries history.now) who table built }
{
    is_next_call(history, who) && is_built(setting, history, table, built)
}

fn is_legal_agg(
    setting: &Setting,
    history: &[PlainEntry],
    who: Who,
    table: u32,
    built: Version,
) -> bool
    ensures { IsTrue result
        ↔ legal.IsLegalAgg setting.now (entries history.now) who table built }
{
    agg_passes(setting, history, who, table, built)
}

fn is_present(history: &[PlainEntry], cube: CubeId, present: Version) -> bool
    ensures { result ≡ (present == meaning.version (entries history.now) cube) }
{
    present.0 as usize == version(history, cube)
}

fn start_passes(
    setting: &Setting,
    history: &[PlainEntry],
    header: &Header,
    present: Version,
    reason: &Cell,
) -> bool
    ensures { result ≡ start_test setting.now (entries history.now) header.now present reason.now }
{
    is_cell(&setting.catalog, reason)
        && columns_rise(header.columns.as_slice())
        && just_covers(header, reason)
        && is_present(history, header.cube, present)
        && !has_source(&setting.catalog, history, reason)
        && awaited_load(history, reason).is_none()
}

fn is_legal_start(
    setting: &Setting,
    history: &[PlainEntry],
    header: &Header,
    present: Version,
    reason: &Cell,
    who: Who,
) -> bool
    ensures { IsTrue result
        ↔ legal.IsLegalStart setting.now (entries history.now)
        (record { who = who; header = header.now; version = present; reason = reason.now }) }
{
    start_passes(setting, history, header, present, reason)
}

fn is_own(history: &[PlainEntry], who: Who, j: u64) -> bool
    ensures { IsTrue result ↔ (meaning.starter (entries history.now) j ≡ Some who) }
{
    match starter(history, j) {
        None => false,
        Some(own) => own == who,
    }
}

fn is_legal_end(history: &[PlainEntry], who: Who, j: u64) -> bool
    ensures { IsTrue result ↔ legal.IsLegalEnd (entries history.now) who j }
{
    flying(history, j) && is_own(history, who, j)
}

fn is_oldest_kept(history: &[PlainEntry], j: u64) -> bool
    ensures { result
        ≡ meaning.is_some_and (λ oldest. oldest == j) (budget.oldest_kept (entries history.now)) }
{
    match oldest_kept(history) {
        None => false,
        Some(oldest) => oldest == j,
    }
}

fn evict_passes(setting: &Setting, history: &[PlainEntry], j: u64) -> bool
    ensures { result ≡ evict_test setting.now (entries history.now) j }
{
    is_oldest_kept(history, j) && is_above(setting, history) && may_evict(history)
}

fn is_legal_eviction(setting: &Setting, history: &[PlainEntry], j: u64) -> bool
    ensures { IsTrue result ↔ legal.IsLegalEviction setting.now (entries history.now) j }
{
    evict_passes(setting, history, j)
}

fn is_answered(setting: &Setting, history: &[PlainEntry], answered: &CellSource) -> bool
    ensures { IsTrue result ↔ legal.IsAnswered setting.now (entries history.now) answered.now }
{
    is_cell(&setting.catalog, &answered.cell)
        && is_source(
            &setting.catalog,
            history,
            &answered.cell,
            answered.loads.as_slice(),
        )
}

fn are_answered(setting: &Setting, history: &[PlainEntry], cells: &[CellSource]) -> bool
    ensures { IsTrue result ↔ Each (legal.IsAnswered setting.now (entries history.now)) cells.now }
{
    match cells {
        [] => true,
        [first, rest @ ..] => is_answered(setting, history, first)
            && are_answered(setting, history, rest),
    }
}

/// Whether an entry is a legal step after a history.
pub fn legal_step(setting: &Setting, history: &[PlainEntry], entry: &PlainEntry) -> bool
    ensures { IsTrue result
        ↔ legal.LegalStep setting.now (entries history.now) (entry_of entry.now) }
{
    match entry {
        PlainEntry::Append {
            who,
            cube,
            version,
            rows,
        } => is_legal_append(setting, history, *who, *cube, *version, rows),
        PlainEntry::Agg {
            who,
            table,
            version,
        } => is_legal_agg(setting, history, *who, *table, *version),
        PlainEntry::Flush { who, region } => is_next_call(history, *who)
            && is_flushable(&setting.catalog, region),
        PlainEntry::Start {
            who,
            header,
            version,
            reason,
        } => is_legal_start(setting, history, header, *version, reason, *who),
        PlainEntry::Done { who, load } => is_legal_end(history, *who, *load),
        PlainEntry::Drop { who, load } => is_legal_end(history, *who, *load),
        PlainEntry::Answer { who, cells } => is_next_call(history, *who)
            && are_answered(setting, history, cells.as_slice()),
        PlainEntry::Evict { load } => is_legal_eviction(setting, history, *load),
        PlainEntry::Saw { who } => is_next_call(history, *who),
    }
}

/// Whether a history is legal.
pub fn is_legal(setting: &Setting, history: &[PlainEntry]) -> bool
    ensures { IsTrue result ↔ legal.Legal setting.now (entries history.now) }
{
    for i in 0..history.len() {
        let legal_here = legal_step(setting, &history[..i], &history[i]);
        if !legal_here {
            return false;
        }
    }
    true
}
