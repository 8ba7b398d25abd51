//! Reading the rows of a version.
ghost use Rattle.std.specs.Prelude.{◌≡◌, ◌≤◌, ◌+◌, ◌++◌, IsTrue, OnOk, drop, length};
ghost use Rattle.segment_header.specs.Headers.{is_header};
ghost use Rattle.fact_reader.specs.BodyRows.{are_batches, body_rows, is_loadable, rows_in};

use crate::reader::RowReader;
use fact_versions::{Snapshot, Steps};
use olap_catalog::Catalog;
use olap_meaning::{Header, OutOfMemory, ROW_LIMIT, ValueId};
use segment_body::Body;
use std::alloc::Global;
use std::sync::ledger::Ledger;

// Adds the rows of a version after those of its first batches to a body, piece by piece, as far as the header allows them.
// Each row is handed out once, for a step. The buffer is for the values of a row: what it holds before and after says
// nothing. Where there is no memory, some of the rows may have been added.
fn add_pieces<L: Ledger>(
    reader: &RowReader<'_>,
    snapshot: &Snapshot,
    first: u32,
    values: &mut Vec<ValueId>,
    body: &mut Body,
    steps: &mut Steps<L>,
) -> Result<(), OutOfMemory>
    requires fit { IsTrue (are_batches reader.now.catalog reader.now.header.cube snapshot.now) }
    requires first { first ≤ length snapshot.now }
    requires same { body.old.header ≡ reader.now.header }
    requires room { length body.old.rows + length (rows_in (drop first snapshot.now)) ≤ ROW_LIMIT }
    ensures ok { OnOk result
        (body.new
        ≡ record body.old {
          rows = body.old.rows
              ++ body_rows reader.now.catalog reader.now.header (rows_in (drop first snapshot.now));
        }) }
    ensures cost { OnOk result
        (steps.new ≡ steps.old + length (rows_in (drop first snapshot.now))) }
    ensures at_least { steps.old ≤ steps.new }
    ensures at_most { steps.new ≤ steps.old + length (rows_in (drop first snapshot.now)) }
{
    for i in 0..snapshot.pieces() - first {
        let piece = snapshot.piece(first + i, steps);
        reader.add_rows(&piece, values, body)?;
    }
    Ok(())
}

/// Adds the rows of a version after those of its first batches to a body, as far as a header allows them. Each row is handed
/// out once, for a step. Where there is no memory, some of the rows may have been added.
pub fn add_later<L: Ledger>(
    alloc: Global,
    catalog: &Catalog,
    header: &Header,
    snapshot: &Snapshot,
    first: u32,
    body: &mut Body,
    steps: &mut Steps<L>,
) -> Result<(), OutOfMemory>
    requires header { IsTrue (is_header header.now) }
    requires loadable { IsTrue (is_loadable catalog.now header.now) }
    requires fit { IsTrue (are_batches catalog.now header.now.cube snapshot.now) }
    requires first { first ≤ length snapshot.now }
    requires same { body.old.header ≡ header.now }
    requires room { length body.old.rows + length (rows_in (drop first snapshot.now)) ≤ ROW_LIMIT }
    ensures ok { OnOk result
        (body.new
        ≡ record body.old {
          rows = body.old.rows
              ++ body_rows catalog.now header.now (rows_in (drop first snapshot.now));
        }) }
    ensures cost { OnOk result
        (steps.new ≡ steps.old + length (rows_in (drop first snapshot.now))) }
    ensures at_least { steps.old ≤ steps.new }
    ensures at_most { steps.new ≤ steps.old + length (rows_in (drop first snapshot.now)) }
{
    let reader = RowReader::new(alloc, catalog, header)?;
    let mut values = Vec::with_capacity(alloc, header.columns.len())?;
    add_pieces(&reader, snapshot, first, &mut values, body, steps)
}
