//! One aggregate of a CSV file.
ghost use Rattle.std.specs.Prelude.{◌≡◌, ◌≢◌, ◌⊎◌, ◌++◌, Ok, IfOk, IfErr, IfSome, IsErrAnd};
ghost use Rattle.std.specs.List.{AllZip, flat_map};
ghost use Rattle.csv_records.specs.Files.{file_records};
ghost use Rattle.olap_meaning.specs.FileQuery.{answer_of, first_fault};
ghost use Rattle.olap_server.specs.Faults.{TellsFault, told_fault};
ghost use Rattle.olap_server.specs.Parted.{IsPart};

use crate::bound_query::BoundQuery;
use crate::fault::CellFault;
use crate::part::{Part, join_parts};
use crate::query::Query;
use csv_records::{Record, Rows, record_parts};
use measure_folds::Tally;
use olap_meaning::{Aggregator, CellValue, Text};
use rayon::prelude::*;
use std::alloc::Global;
use std::thread::Threads;

/// The aggregate of a column over the records of a CSV file whose fields equal the pairs, each a column and a field.
///
/// The parts of a large file are read in several threads, except for a distinct count.
pub fn cell_of_csv(
    rt: &(impl Threads + Sync),
    alloc: Global,
    bytes: &[u8],
    column: &str,
    aggregator: Aggregator,
    pairs: &[(Text, Text)],
) -> Result<CellValue, CellFault>
    ensures value { IfOk result (λ v.
        answer_of (record { column = column.now; aggregator = aggregator; pairs = pairs.now })
        (file_records bytes.now) ≡ Ok v) }

    // A fault is the file's first, from the header down.
    ensures fault { IfErr result (λ e. (e ≡ CellFault.OutOfMemory) ⊎ IsErrAnd
        (answer_of (record { column = column.now; aggregator = aggregator; pairs = pairs.now })
        (file_records bytes.now))
        (λ fault. e ≡ told_fault fault)) }
{
    if aggregator != Aggregator::DistinctCount {
        let query = Query::new(column, aggregator, pairs);
        if let Some(value) = cell_of_parts(rt, alloc, bytes, query) {
            return Ok(value);
        }
    }
    let query = Query::new(column, aggregator, pairs);
    cell_of_rows(alloc, bytes, query)
}

// The cell of a file that is read by parts. None where it has but one, or where anything is wrong: which fault is the
// first, a reading from the start tells.
fn cell_of_parts(
    rt: &(impl Threads + Sync),
    alloc: Global,
    bytes: &[u8],
    query: Query<'_>,
) -> Option<CellValue>
    requires { query.aggregator ≢ Aggregator.DistinctCount }
    ensures { IfSome result (λ v. answer_of query.entry (file_records bytes.now) ≡ Ok v) }
{
    let Ok(parts) = record_parts(alloc, bytes) else {
        return None;
    };
    match parts.as_slice().split_first() {
        Some((first, more)) if !more.is_empty() => side_by_side(rt, alloc, first, more, query),
        _ => None,
    }
}

// The cell of a file in parts, the first with the header.
fn side_by_side(
    rt: &(impl Threads + Sync),
    alloc: Global,
    first: &[u8],
    more: &[&[u8]],
    query: Query<'_>,
) -> Option<CellValue>
    requires { query.aggregator ≢ Aggregator.DistinctCount }
    ensures { IfSome result (λ v.
        answer_of query.entry
        (file_records first.now ++ flat_map (λ part. file_records part.now) more.now) ≡ Ok v) }
{
    let mut rows = Rows::new(alloc, first);
    let mut header = Record::new(alloc);
    let Ok(true) = rows.next(&mut header) else {
        return None;
    };
    let Ok(bound) = BoundQuery::bind(alloc, query, header) else {
        return None;
    };
    let Ok(start) = fold_rows(alloc, &bound, &mut rows) else {
        return None;
    };
    let folded = fold_parts(rt, alloc, &bound, more)?;
    let whole = join_parts(start, folded.as_slice())?;
    Some(whole.finish())
}

// What is kept of each part below the header, in order. None where a part has a fault, or there is no memory.
fn fold_parts(
    rt: &(impl Threads + Sync),
    alloc: Global,
    bound: &BoundQuery<'_>,
    parts: &[&[u8]],
) -> Option<Vec<Part>>
    ensures { IfSome result (λ folded.
        AllZip
        (λ bytes part. IsPart bound.now.query bound.now.header (file_records bytes.now) part)
        parts.now folded.items) }
{
    let folded = parts
        .par_iter()
        .with_min_len(1)
        .map(
            |bytes: &&[u8]| -> Result<Part, CellFault>
                ensures { IfOk result
                    (λ part. IsPart bound.entry.now.query bound.entry.now.header
                    (file_records bytes.now.now) part) }
            { fold_part(alloc, bound, bytes) },
        )
        .collect::<Result<Vec<Part>, CellFault>>(rt, alloc);
    match folded {
        Ok(Ok(folded)) => Some(folded),
        _ => None,
    }
}

// What is kept of a part below the header.
fn fold_part(alloc: Global, bound: &BoundQuery<'_>, bytes: &[u8]) -> Result<Part, CellFault>
    ensures { IfOk result
        (λ part. IsPart bound.now.query bound.now.header (file_records bytes.now) part) }
{
    let mut rows = Rows::new(alloc, bytes);
    fold_rows(alloc, bound, &mut rows)
}

// The cell of a file that is read from its start.
fn cell_of_rows(alloc: Global, bytes: &[u8], query: Query<'_>) -> Result<CellValue, CellFault>
    ensures value { IfOk result (λ v. answer_of query.entry (file_records bytes.now) ≡ Ok v) }
    ensures fault { IfErr result (λ e. (e ≡ CellFault.OutOfMemory) ⊎ IsErrAnd
        (answer_of query.entry (file_records bytes.now)) (λ fault. e ≡ told_fault fault)) }
{
    let mut rows = Rows::new(alloc, bytes);
    let mut header = Record::new(alloc);
    if !rows.next(&mut header)? {
        // An empty file has no columns.
        return Err(CellFault::missing_column(alloc, query.column()));
    }
    let bound = BoundQuery::bind(alloc, query, header)?;
    let whole = fold_rows(alloc, &bound, &mut rows)?;
    Ok(whole.finish())
}

// What is kept of the records that are left. One record is held at a time.
fn fold_rows(alloc: Global, bound: &BoundQuery<'_>, rows: &mut Rows<'_>) -> Result<Part, CellFault>
    ensures part { IfOk result (λ part. IsPart bound.now.query bound.now.header rows.old part) }
    ensures fault { IfErr result (λ e. (e ≡ CellFault.OutOfMemory)
        ⊎ TellsFault e (first_fault bound.now.query bound.now.header 1 rows.old)) }
{
    let mut tally = Tally::new(alloc, bound.aggregator());
    let mut row = Record::new(alloc);
    let mut n = 0u64;
    while rows.next(&mut row)? {
        n += 1;
        let value = bound.value(alloc, &row, n)?;
        if bound.asks_for(&row) {
            tally.step(value)?;
        }
    }
    Ok(Part::new(tally, n))
}
