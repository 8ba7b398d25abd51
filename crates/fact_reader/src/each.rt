//! Reading the rows of a version once for several bodies.
ghost use Rattle.std.specs.Prelude.{◌≡◌, ◌≤◌, ◌<◌, ◌+◌, ◌^◌, All, IfOk, IsTrue, OnOk, length, map};
ghost use Rattle.segment_header.specs.Headers.{is_header};
ghost use Rattle.segment_body.specs.BodyOf.{different_values};
ghost use Rattle.fact_reader.specs.BodyRows.{AreAlike, are_batches, is_batch, is_loadable, rows_in, with_rows};
ghost use Rattle.fact_reader.specs.Blocks.{IsBehind, IsPlacedRow, valued_rows, with_block};
ghost use Rattle.fact_reader.specs.Reading.{reader_of};

use crate::blocks::PlacedRow;
use crate::reader::RowReader;
use fact_versions::{Piece, Snapshot, Steps};
use olap_catalog::Catalog;
use olap_meaning::{Header, OutOfMemory, ROW_LIMIT, ValueId};
use segment_body::Body;
use segment_header::copy_header;
use std::alloc::Global;
use std::sync::ledger::Ledger;

// This many rows are added to one body before the next takes them: what a body holds stays in the processor's cache meanwhile.
const BLOCK_ROWS: u64 = 4096;

// The headers of some bodies, copied, since the bodies change while they are read for.
fn headers_of(alloc: Global, bodies: &[Body]) -> Result<Vec<Header>, OutOfMemory>
    ensures headers { IfOk result (λ headers. headers.items ≡ map (λ body. body.header) bodies.now) }
    ensures hold { IfOk result (λ headers. All (λ header. IsTrue (is_header header)) headers.items) }
{
    let mut headers = Vec::with_capacity(alloc, bodies.len())?;
    for body in bodies {
        headers.push(copy_header(alloc, body.header())?)?;
    }
    Ok(headers)
}

// What reads rows for each of some headers.
fn readers_of<'a>(
    alloc: Global,
    catalog: &'a Catalog,
    headers: &'a [Header],
) -> Result<Vec<RowReader<'a>>, OutOfMemory>
    requires hold { All (λ header. IsTrue (is_header header)) headers.now }
    requires loadable { All (λ header. IsTrue (is_loadable catalog.now header)) headers.now }
    ensures { IfOk result
        (λ readers. readers.items
        ≡ map (λ header. record { catalog = catalog.entry.now; header = header })
        headers.entry.now) }
{
    let mut readers = Vec::with_capacity(alloc, headers.len())?;
    for header in headers {
        readers.push(RowReader::new(alloc, catalog, header)?)?;
    }
    Ok(readers)
}

// Adds the rows of a block, each with its number of the measure, to each of some bodies that have the values of all other rows of
// the body that they are placed in.
fn add_block_to_each(
    _catalog: &Catalog,
    readers: &[RowReader<'_>],
    piece: &Piece<'_>,
    block: &[PlacedRow],
    first: &Body,
    bodies: &mut [Body],
) -> Result<(), OutOfMemory>
    requires readers { readers.now ≡ map (reader_of _catalog.now) bodies.old }
    requires fit { IsTrue (is_batch _catalog.now first.now.header.cube piece.now) }
    requires few_columns { piece.now.columns < 2 ^ 32 }
    requires placed { All (IsPlacedRow piece.now (different_values first.now.rows)) block.now }
    requires behind { All
        (IsBehind first.now (valued_rows (different_values first.now.rows) block.now)) bodies.old }
    requires room { All (λ body. length body.rows + length block.now ≤ ROW_LIMIT) bodies.old }
    ensures { OnOk result
        (bodies.new
        ≡ map
        (with_block _catalog.now piece.now
        (valued_rows (different_values first.now.rows) block.now)) bodies.old) }
{
    for k in 0..bodies.len() {
        readers[k].add_block(piece, block, first, &mut bodies[k])?;
    }
    Ok(())
}

// Adds the rows of a piece to a body and to others that are alike, as far as their headers allow them. The values of a row are
// looked up for the first body alone, and so is its group; the others have it at the same place, and look it up only where it is
// new to them.
fn add_blocks(
    catalog: &Catalog,
    reader: &RowReader<'_>,
    readers: &[RowReader<'_>],
    piece: &Piece<'_>,
    values: &mut Vec<ValueId>,
    block: &mut Vec<PlacedRow>,
    first: &mut Body,
    others: &mut [Body],
) -> Result<(), OutOfMemory>
    requires reader { reader.now ≡ reader_of catalog.now first.old }
    requires readers { readers.now ≡ map (reader_of catalog.now) others.old }
    requires alike { AreAlike others.old first.old }
    requires fit { IsTrue (is_batch catalog.now first.old.header.cube piece.now) }
    requires room { length first.old.rows + length piece.now.rows ≤ ROW_LIMIT }
    requires rooms { All
        (λ body. length body.rows + length piece.now.rows ≤ ROW_LIMIT) others.old }
    ensures first { OnOk result (first.new ≡ with_rows catalog.now piece.now.rows first.old) }
    ensures others { OnOk result
        (others.new ≡ map (with_rows catalog.now piece.now.rows) others.old) }
{
    // A row has no more leaves and numbers than these can count.
    let (_dimensions, _columns) = (piece.dimensions(), piece.columns());
    let rows = piece.len();
    let mut from = 0;
    while from < rows {
        let to = from + (rows - from).min(BLOCK_ROWS);
        reader.place_rows(piece, from, to, values, block, first)?;
        add_block_to_each(catalog, readers, piece, block.as_slice(), first, others)?;
        from = to;
    }
    Ok(())
}

// Adds the rows of a piece to each of some bodies, as far as their headers allow them. The buffers are for rows on their way.
fn add_piece(
    catalog: &Catalog,
    readers: &[RowReader<'_>],
    piece: &Piece<'_>,
    values: &mut Vec<ValueId>,
    block: &mut Vec<PlacedRow>,
    bodies: &mut [Body],
) -> Result<(), OutOfMemory>
    requires readers { readers.now ≡ map (reader_of catalog.now) bodies.old }
    requires alike { All (AreAlike bodies.old) bodies.old }
    requires fit { All
        (λ body. IsTrue (is_batch catalog.now body.header.cube piece.now)) bodies.old }
    requires room { All
        (λ body. length body.rows + length piece.now.rows ≤ ROW_LIMIT) bodies.old }
    ensures { OnOk result
        (bodies.new ≡ map (with_rows catalog.now piece.now.rows) bodies.old) }
{
    let Some((reader, readers)) = readers.split_first() else {
        return Ok(());
    };
    let Some((first, others)) = bodies.split_first_mut() else {
        return Ok(());
    };
    // Nobody else needs the places of the groups.
    if others.is_empty() {
        return reader.add_rows(piece, values, first);
    }
    add_blocks(
        catalog, reader, readers, piece, values, block, first, others,
    )
}

// Adds the rows of a version to each of some bodies, piece by piece.
fn add_pieces_to_each<L: Ledger>(
    alloc: Global,
    catalog: &Catalog,
    readers: &[RowReader<'_>],
    snapshot: &Snapshot,
    bodies: &mut [Body],
    steps: &mut Steps<L>,
) -> Result<(), OutOfMemory>
    requires readers { readers.now ≡ map (reader_of catalog.now) bodies.old }
    requires alike { All (AreAlike bodies.old) bodies.old }
    requires fit { All
        (λ body. IsTrue (are_batches catalog.now body.header.cube snapshot.now)) bodies.old }
    requires room { All
        (λ body. length body.rows + length (rows_in snapshot.now) ≤ ROW_LIMIT) bodies.old }
    ensures added { OnOk result
        (bodies.new ≡ map (with_rows catalog.now (rows_in snapshot.now)) bodies.old) }
    ensures cost { OnOk result (steps.new ≡ steps.old + length (rows_in snapshot.now)) }
    ensures at_least { steps.old ≤ steps.new }
    ensures at_most { steps.new ≤ steps.old + length (rows_in snapshot.now) }
{
    let mut values = Vec::new(alloc);
    let mut block = Vec::new(alloc);
    for i in 0..snapshot.pieces() {
        let piece = snapshot.piece(i, steps);
        add_piece(catalog, readers, &piece, &mut values, &mut block, bodies)?;
    }
    Ok(())
}

/// Adds the rows of a version to each of some bodies, as far as their headers allow them. The bodies are alike: they differ at
/// most in their measures, their aggregators and the numbers of their rows. Each row is handed out once, for a step. Where there
/// is no memory, nothing is said of the bodies.
pub fn add_to_each<L: Ledger>(
    alloc: Global,
    catalog: &Catalog,
    snapshot: &Snapshot,
    bodies: &mut [Body],
    steps: &mut Steps<L>,
) -> Result<(), OutOfMemory>
    requires loadable { All
        (λ body. IsTrue (is_loadable catalog.now body.header)) bodies.old }
    requires alike { All (AreAlike bodies.old) bodies.old }
    requires fit { All
        (λ body. IsTrue (are_batches catalog.now body.header.cube snapshot.now)) bodies.old }
    requires room { All
        (λ body. length body.rows + length (rows_in snapshot.now) ≤ ROW_LIMIT) bodies.old }
    ensures added { OnOk result
        (bodies.new ≡ map (with_rows catalog.now (rows_in snapshot.now)) bodies.old) }
    ensures cost { OnOk result (steps.new ≡ steps.old + length (rows_in snapshot.now)) }
    ensures at_least { steps.old ≤ steps.new }
    ensures at_most { steps.new ≤ steps.old + length (rows_in snapshot.now) }
{
    let headers = headers_of(alloc, bodies)?;
    let readers = readers_of(alloc, catalog, headers.as_slice())?;
    add_pieces_to_each(alloc, catalog, readers.as_slice(), snapshot, bodies, steps)
}
