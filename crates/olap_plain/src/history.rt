//! The meanings of regions, headers and histories as plain, slow code: each walks the whole list each time.
ghost use Rattle.std.specs.Prelude.{count_by, drop, ◌≡◌, ◌≤◌, ◌<◌, ◌+◌, ◌&&◌, ◌||◌, option_map, option_copied, ◌==◌, not, length, unwrap_or, is_some, Option};
ghost use Rattle.std.specs.List.{list_any, list_all};
ghost use Rattle.olap_meaning.specs.Covering as covering;
ghost use Rattle.olap_meaning.specs.History as meaning;
ghost use Rattle.olap_plain.specs.Entries as plain_view;

use crate::PlainEntry;
use olap_meaning::{
    Allowed, Cell, ColumnId, CubeId, Header, MeasureId, Region, RegionBox, ValueId, Who,
};

/// Whether a value is one of a list.
pub fn among(values: &[ValueId], value: ValueId) -> bool
    ensures { result ≡ covering.among values.now value }
{
    values.iter().any(|v| *v == value)
}

/// Whether a value is allowed.
pub fn allows(allowed: &Allowed, value: ValueId) -> bool
    ensures { result ≡ covering.allows allowed.now value }
{
    match allowed {
        Allowed::Any => true,
        Allowed::Set(values) => among(values.as_slice(), value),
    }
}

fn column_allows(columns: &[(ColumnId, Allowed)], column: ColumnId, value: ValueId) -> bool
    ensures { result ≡ list_any (λ c. (c.0 == column) && covering.allows c.1 value) columns.now }
{
    columns.iter().any(|c| c.0 == column && allows(&c.1, value))
}

fn columns_allow(columns: &[(ColumnId, Allowed)], at: &[(ColumnId, ValueId)]) -> bool
    ensures { result
        ≡ list_all
        (λ pair. list_any (λ c. (c.0 == pair.0) && covering.allows c.1 pair.1) columns.now) at.now }
{
    at.iter().all(|pair| column_allows(columns, pair.0, pair.1))
}

/// Whether a header covers a cell.
pub fn header_covers(header: &Header, cell: &Cell) -> bool
    ensures { result ≡ covering.header_covers header.now cell.now }
{
    header.cube == cell.cube
        && header.measure == cell.measure
        && columns_allow(header.columns.as_slice(), cell.at.as_slice())
}

pub(crate) fn names_column(cell: &Cell, column: ColumnId) -> bool
    ensures { result ≡ covering.names_column cell.now column }
{
    cell.at.as_slice().iter().any(|pair| pair.0 == column)
}

fn names_columns(cell: &Cell, columns: &[(ColumnId, Allowed)]) -> bool
    ensures { result ≡ list_all (λ c. covering.names_column cell.now c.0) columns.now }
{
    columns.iter().all(|c| names_column(cell, c.0))
}

/// Whether a header covers a cell with just its columns.
pub fn just_covers(header: &Header, cell: &Cell) -> bool
    ensures { result ≡ covering.just_covers header.now cell.now }
{
    header_covers(header, cell) && names_columns(cell, header.columns.as_slice())
}

fn among_measures(measures: &[MeasureId], measure: MeasureId) -> bool
    ensures { result ≡ covering.among measures.now measure }
{
    measures.iter().any(|m| *m == measure)
}

fn of_measure(region_box: &RegionBox, measure: MeasureId) -> bool
    ensures { result ≡ covering.of_measure region_box.now.measures measure }
{
    match &region_box.measures {
        None => true,
        Some(measures) => among_measures(measures.as_slice(), measure),
    }
}

fn box_holds(region_box: &RegionBox, column: ColumnId, value: ValueId) -> bool
    ensures { result
        ≡ list_all (λ c. not (c.0 == column) || covering.among c.1 value) region_box.now.columns }
{
    region_box
        .columns
        .as_slice()
        .iter()
        .all(|c| c.0 != column || among(c.1.as_slice(), value))
}

fn box_holds_all(region_box: &RegionBox, at: &[(ColumnId, ValueId)]) -> bool
    ensures { result
        ≡ list_all
        (λ pair. list_all
        (λ c. not (c.0 == pair.0) || covering.among c.1 pair.1) region_box.now.columns) at.now }
{
    at.iter().all(|pair| box_holds(region_box, pair.0, pair.1))
}

fn box_covers(region_box: &RegionBox, cell: &Cell) -> bool
    ensures { result ≡ covering.box_covers region_box.now cell.now }
{
    of_measure(region_box, cell.measure) && box_holds_all(region_box, cell.at.as_slice())
}

fn some_box_covers(boxes: &[RegionBox], cell: &Cell) -> bool
    ensures { result ≡ list_any (λ b. covering.box_covers b cell.now) boxes.now }
{
    boxes.iter().any(|b| box_covers(b, cell))
}

/// Whether a region covers a cell.
pub fn region_covers(region: &Region, cell: &Cell) -> bool
    ensures { result ≡ covering.region_covers region.now cell.now }
{
    region.cube == cell.cube && some_box_covers(region.boxes.as_slice(), cell)
}

fn some_allowed(allowed: &Allowed, values: &[ValueId]) -> bool
    ensures { result ≡ list_any (covering.allows allowed.now) values.now }
{
    values.iter().any(|v| allows(allowed, *v))
}

fn box_allows(region_box: &RegionBox, column: ColumnId, allowed: &Allowed) -> bool
    ensures { result
        ≡ list_all
        (λ c. not (c.0 == column) || list_any (covering.allows allowed.now) c.1) region_box.now.columns }
{
    region_box
        .columns
        .as_slice()
        .iter()
        .all(|c| c.0 != column || some_allowed(allowed, c.1.as_slice()))
}

fn box_allows_all(region_box: &RegionBox, columns: &[(ColumnId, Allowed)]) -> bool
    ensures { result
        ≡ list_all
        (λ own. list_all
        (λ c. not (c.0 == own.0) || list_any (covering.allows own.1) c.1) region_box.now.columns) columns.now }
{
    columns
        .iter()
        .all(|own| box_allows(region_box, own.0, &own.1))
}

fn box_touches(region_box: &RegionBox, header: &Header) -> bool
    ensures { result ≡ covering.box_touches region_box.now header.now }
{
    of_measure(region_box, header.measure) && box_allows_all(region_box, header.columns.as_slice())
}

fn some_box_touches(boxes: &[RegionBox], header: &Header) -> bool
    ensures { result ≡ list_any (λ b. covering.box_touches b header.now) boxes.now }
{
    boxes.iter().any(|b| box_touches(b, header))
}

/// Whether a region touches a header.
pub fn region_touches(region: &Region, header: &Header) -> bool
    ensures { result ≡ covering.region_touches region.now header.now }
{
    region.cube == header.cube && some_box_touches(region.boxes.as_slice(), header)
}

fn flushes(cell: &Cell, entry: &PlainEntry) -> bool
    ensures { result ≡ meaning.flushes cell.now (plain_view.entry_of entry.now) }
{
    match entry {
        PlainEntry::Flush { who: _, region } => region_covers(region, cell),
        _ => false,
    }
}

fn delivers(j: u64, entry: &PlainEntry) -> bool
    ensures { result ≡ meaning.delivers j (plain_view.entry_of entry.now) }
{
    match entry {
        PlainEntry::Done { who: _, load } => *load == j,
        _ => false,
    }
}

fn evicts(j: u64, entry: &PlainEntry) -> bool
    ensures { result ≡ meaning.evicts j (plain_view.entry_of entry.now) }
{
    match entry {
        PlainEntry::Evict { load } => *load == j,
        _ => false,
    }
}

fn ends(j: u64, entry: &PlainEntry) -> bool
    ensures { result ≡ meaning.ends j (plain_view.entry_of entry.now) }
{
    match entry {
        PlainEntry::Done { who: _, load } => *load == j,
        PlainEntry::Drop { who: _, load } => *load == j,
        _ => false,
    }
}

fn appends(cube: usize, entry: &PlainEntry) -> bool
    ensures { result ≡ is_some (meaning.appended cube (plain_view.entry_of entry.now)) }
{
    match entry {
        PlainEntry::Append {
            who: _,
            cube: c,
            version: _,
            rows: _,
        } => c.0 as usize == cube,
        _ => false,
    }
}

/// The version of a cube.
pub fn version(entries: &[PlainEntry], cube: CubeId) -> usize
    ensures { result ≡ meaning.version (plain_view.entries entries.now) cube }
{
    version_at(entries, cube.0 as usize)
}

/// The version of a cube, by the cube's place.
pub fn version_at(entries: &[PlainEntry], cube: usize) -> usize
    ensures { result ≡ meaning.version (plain_view.entries entries.now) cube }
{
    entries.iter().filter(|e| appends(cube, e)).count()
}

fn some_flushes(cell: &Cell, entries: &[PlainEntry]) -> bool
    ensures { result
        ≡ list_any (λ e. meaning.flushes cell.now (plain_view.entry_of e)) entries.now }
{
    entries.iter().any(|e| flushes(cell, e))
}

fn some_delivers(entries: &[PlainEntry], j: u64) -> bool
    ensures { result ≡ list_any (λ e. meaning.delivers j (plain_view.entry_of e)) entries.now }
{
    entries.iter().any(|e| delivers(j, e))
}

fn some_evicts(entries: &[PlainEntry], j: u64) -> bool
    ensures { result ≡ list_any (λ e. meaning.evicts j (plain_view.entry_of e)) entries.now }
{
    entries.iter().any(|e| evicts(j, e))
}

fn some_ends(entries: &[PlainEntry], j: u64) -> bool
    ensures { result ≡ list_any (λ e. meaning.ends j (plain_view.entry_of e)) entries.now }
{
    entries.iter().any(|e| ends(j, e))
}

fn flushed_after(entries: &[PlainEntry], position: u64, cell: &Cell) -> bool
    requires { position ≤ length entries.now }
    ensures { result ≡ meaning.flushed_after (plain_view.entries entries.now) position cell.now }
{
    some_flushes(cell, &entries[position as usize..])
}

fn delivered(entries: &[PlainEntry], j: u64) -> bool
    ensures { result ≡ meaning.delivered (plain_view.entries entries.now) j }
{
    some_delivers(entries, j)
}

fn evicted(entries: &[PlainEntry], j: u64) -> bool
    ensures { result ≡ list_any (meaning.evicts j) (plain_view.entries entries.now) }
{
    some_evicts(entries, j)
}

/// Whether a load is kept.
pub fn kept(entries: &[PlainEntry], j: u64) -> bool
    ensures { result ≡ meaning.kept (plain_view.entries entries.now) j }
{
    delivered(entries, j) && !evicted(entries, j)
}

fn ended(entries: &[PlainEntry], j: u64) -> bool
    ensures { result ≡ list_any (meaning.ends j) (plain_view.entries entries.now) }
{
    some_ends(entries, j)
}

#[tactic(auto, using(crate::proofs::EntryFacts::entry_here, crate::proofs::EntryFacts::entry_past, crate::proofs::EntryFacts::entry_zero))]
pub(crate) fn entry_at(entries: &[PlainEntry], p: u64) -> Option<&PlainEntry>
    ensures { option_map plain_view.entry_of (option_copied result)
        ≡ meaning.entry_at (plain_view.entries entries.now) p }
{
    if p == 0 || p > entries.len() as u64 {
        return None;
    }
    Some(&entries[(p - 1) as usize])
}

fn header_of(entry: &PlainEntry) -> Option<&Header>
    ensures { option_copied result
        ≡ option_map (λ l. l.header) (meaning.started (plain_view.entry_of entry.now)) }
{
    match entry {
        PlainEntry::Start {
            who: _,
            header,
            version: _,
            reason: _,
        } => Some(header),
        _ => None,
    }
}

fn load_header(entries: &[PlainEntry], j: u64) -> Option<&Header>
    ensures { option_copied result
        ≡ option_map (λ l. l.header) (meaning.load_at (plain_view.entries entries.now) j) }
{
    match entry_at(entries, j) {
        None => None,
        Some(entry) => header_of(entry),
    }
}

fn starter_of(entry: &PlainEntry) -> Option<Who>
    ensures { result ≡ option_map (λ l. l.who) (meaning.started (plain_view.entry_of entry.now)) }
{
    match entry {
        PlainEntry::Start {
            who,
            header: _,
            version: _,
            reason: _,
        } => Some(*who),
        _ => None,
    }
}

/// Who started a load.
pub fn starter(entries: &[PlainEntry], j: u64) -> Option<Who>
    ensures { result ≡ meaning.starter (plain_view.entries entries.now) j }
{
    match entry_at(entries, j) {
        None => None,
        Some(entry) => starter_of(entry),
    }
}

/// Whether a load is flying.
pub fn flying(entries: &[PlainEntry], j: u64) -> bool
    ensures { result ≡ meaning.flying (plain_view.entries entries.now) j }
{
    match load_header(entries, j) {
        None => false,
        Some(_) => !ended(entries, j),
    }
}

fn region_of(entry: &PlainEntry) -> Option<&Region>
    ensures { option_copied result ≡ meaning.flushed (plain_view.entry_of entry.now) }
{
    match entry {
        PlainEntry::Flush { who: _, region } => Some(region),
        _ => None,
    }
}

fn touches_header(header: &Header, entry: &PlainEntry) -> bool
    ensures { result
        ≡ meaning.is_some_and
        (λ r. covering.region_touches r header.now)
        (meaning.flushed (plain_view.entry_of entry.now)) }
{
    match region_of(entry) {
        None => false,
        Some(region) => region_touches(region, header),
    }
}

fn count_touching(entries: &[PlainEntry], header: &Header) -> usize
    ensures { result
        ≡ count_by
        (λ e. meaning.is_some_and
        (λ r. covering.region_touches r header.now) (meaning.flushed (plain_view.entry_of e)))
        entries.now }
{
    entries.iter().filter(|e| touches_header(header, e)).count()
}

fn touching_after(entries: &[PlainEntry], position: u64, header: &Header) -> usize
    requires { position ≤ length entries.now }
    ensures { result
        ≡ covering.touching header.now
        (meaning.regions_after (plain_view.entries entries.now) position) }
{
    count_touching(&entries[position as usize..], header)
}

/// How many flushes since its Start touch a load.
pub fn flush_count(entries: &[PlainEntry], j: u64) -> usize
    ensures { result ≡ meaning.flush_count (plain_view.entries entries.now) j }
{
    match load_header(entries, j) {
        None => 0,
        Some(header) => touching_after(entries, j, header),
    }
}

/// Whether a load is awaited for a cell.
pub fn awaited(entries: &[PlainEntry], j: u64, cell: &Cell) -> bool
    ensures { result ≡ meaning.awaited (plain_view.entries entries.now) j cell.now }
{
    match load_header(entries, j) {
        None => false,
        Some(header) => !ended(entries, j)
            && !flushed_after(entries, j, cell)
            && just_covers(header, cell),
    }
}

/// Whether a load is live for a cell.
pub fn live(entries: &[PlainEntry], j: u64, cell: &Cell) -> bool
    ensures { result ≡ meaning.live (plain_view.entries entries.now) j cell.now }
{
    match load_header(entries, j) {
        None => false,
        Some(header) => kept(entries, j)
            && header_covers(header, cell)
            && !flushed_after(entries, j, cell),
    }
}

fn load_just_covers(entries: &[PlainEntry], j: u64, cell: &Cell) -> bool
    ensures { result ≡ meaning.load_just_covers (plain_view.entries entries.now) j cell.now }
{
    match load_header(entries, j) {
        None => false,
        Some(header) => just_covers(header, cell),
    }
}

fn serves(entries: &[PlainEntry], j: u64, cell: &Cell) -> bool
    ensures { result
        ≡ (meaning.live (plain_view.entries entries.now) j cell.now
        && meaning.load_just_covers (plain_view.entries entries.now) j cell.now) }
{
    live(entries, j, cell) && load_just_covers(entries, j, cell)
}

/// The exact source of a cell.
pub fn exact_source(entries: &[PlainEntry], cell: &Cell) -> Option<u64>
    ensures { result ≡ meaning.exact_source (plain_view.entries entries.now) cell.now }
{
    let mut j = entries.len() as u64;
    while j > 0 {
        let found = serves(entries, j, cell);
        if found {
            return Some(j);
        }
        j -= 1;
    }
    None
}

/// The earliest load that is awaited for a cell.
pub fn awaited_load(entries: &[PlainEntry], cell: &Cell) -> Option<u64>
    ensures { result ≡ meaning.awaited_load (plain_view.entries entries.now) cell.now }
{
    for i in 0..entries.len() {
        let found = awaited(entries, i as u64 + 1, cell);
        if found {
            return Some(i as u64 + 1);
        }
    }
    None
}

fn flush_at(entries: &[PlainEntry], p: u64, cell: &Cell) -> bool
    ensures { result
        ≡ meaning.is_some_and (meaning.flushes cell.now)
        (meaning.entry_at (plain_view.entries entries.now) p) }
{
    match entry_at(entries, p) {
        None => false,
        Some(entry) => flushes(cell, entry),
    }
}

fn latest_flush(entries: &[PlainEntry], cell: &Cell) -> u64
    ensures value { result ≡ meaning.latest_flush (plain_view.entries entries.now) cell.now }
    ensures within { result ≤ length entries.now }
{
    let mut p = entries.len() as u64;
    while p > 0 {
        let found = flush_at(entries, p, cell);
        if found {
            return p;
        }
        p -= 1;
    }
    0
}

/// The floor of a cell.
pub fn floor(entries: &[PlainEntry], cell: &Cell) -> usize
    ensures { result ≡ meaning.floor (plain_view.entries entries.now) cell.now }
{
    version(&entries[..latest_flush(entries, cell) as usize], cell.cube)
}
