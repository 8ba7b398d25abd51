//! Comparing the records of an aggregate table's file with what the fact rows give.
ghost use Rattle.std.specs.Prelude.{◌≡◌, ◌⊎◌, ◌<◌, ◌≤◌, [], true, IfErr, IfOk, None, OnOk, Some, length, option_and_then, option_map, slice_get};
ghost use Rattle.olap_meaning.specs.Records.{is_csv};
ghost use Rattle.fact_reader.specs.BodyRows.{rows_in, values_in};
ghost use Rattle.agg_tables.specs.Checks.{number_fault_at, numbers_fault, values_fault};
ghost use Rattle.agg_tables.specs.Files.{computed, count_fault, file_columns, group_rows, missing_fault, record_values, records_fault, row_fault};
ghost use Rattle.agg_tables.specs.Places.{AreComputed};
ghost use Rattle.agg_tables.specs.Tables.{groups_over, table_columns};

use crate::fault::{AggFault, differing};
use crate::fields::says;
use crate::file::TableFile;
use csv_records::{Record, Rows};
use fact_versions::Snapshot;
use olap_meaning::{Aggregator, CellValue, OutOfMemory, ROW_LIMIT, ValueId};
use segment_body::Body;
use segment_header::copy_header;
use std::alloc::Global;
use std::marker::Model;

/// A table over the header of its file, with its folds over the rows of a snapshot.
#[derive(Drop)]
pub(crate) struct Checker<'a> {
    file: TableFile<'a>,
    snapshot: &'a Snapshot,
    bodies: Vec<Body>,
}

impl<'a> Model for Checker<'a> {
    ghost use Rattle.fact_reader.specs.BodyRows.{rows_in};
    ghost use Rattle.agg_tables.specs.Places.{AreComputed, CheckerOf};

    ghost Value = { CheckerOf };

    ghost view = { λ a. record { file = a.file; rows = rows_in a.snapshot.now } };

    ghost invariant = { λ a. AreComputed a.file (rows_in a.snapshot.now) a.bodies.items };
}

impl<'a> Checker<'a> {
    pub(crate) fn new(file: TableFile<'a>, snapshot: &'a Snapshot, bodies: Vec<Body>) -> Checker<'a>
        requires { AreComputed file (rows_in snapshot.now) bodies.items }
        ensures { result ≡ record { file = file.entry; rows = rows_in snapshot.entry.now } }
    {
        Checker {
            file,
            snapshot,
            bodies,
        }
    }

    /// The bodies of the folds.
    pub(crate) fn into_bodies(self) -> Vec<Body>
        ensures { AreComputed self.entry.file self.entry.rows result.items }
    {
        self.bodies
    }

    /// How many groups the rows have.
    fn groups(&self) -> u64
        ensures count { result
            ≡ length (groups_over self.now.file.catalog self.now.file.declared self.now.rows) }
        ensures limit { result ≤ ROW_LIMIT }
    {
        self.bodies[0].groups()
    }

    /// How many rows have some values.
    fn count(&self, values: &[ValueId]) -> u32
        ensures { result
            ≡ length
            (group_rows self.now.file.catalog self.now.file.declared self.now.rows values.now) }
    {
        match self.bodies[0].get(values) {
            None => 0,
            Some(tally) => tally.rows(),
        }
    }

    /// What the rows that have some values give in a column of numbers.
    fn value(&self, values: &[ValueId], j: usize) -> CellValue
        requires { j < length (file_columns self.now.file.declared.measures) }
        ensures { Some result
            ≡ option_map
            (computed self.now.file.catalog self.now.file.declared
            (group_rows self.now.file.catalog self.now.file.declared self.now.rows values.now))
            (slice_get (file_columns self.now.file.declared.measures) j) }
    {
        match self.bodies[self.file.fold_place(j)].get(values) {
            None => CellValue::Empty,
            Some(tally) => tally.finish(),
        }
    }

    // Whether the fact count of a record is that of its values.
    fn check_count(&self, alloc: Global, row: &Record, n: u64, count: u32) -> Result<(), AggFault>
        requires { is_csv self.now.file.header row.now ≡ true }
        ensures sound { OnOk result
            (count_fault self.now.file.declared self.now.file.header n row.now count ≡ None) }
        ensures err { IfErr result
            (λ e. (e ≡ AggFault.OutOfMemory)
            ⊎ (count_fault self.now.file.declared self.now.file.header n row.now count
            ≡ Some e)) }
    {
        let field = self.file.count_field(row);
        let value = CellValue::Whole(i128::from(count));
        let same = says(&value, field);
        if count > 0 && same {
            return Ok(());
        }
        Err(differing(alloc, n, self.file.fact_count(), field, &value))
    }

    // Whether a column of numbers of a record says what the rows with its values give.
    fn check_number(
        &self,
        alloc: Global,
        row: &Record,
        n: u64,
        values: &[ValueId],
        j: usize,
    ) -> Result<(), AggFault>
        requires csv { is_csv self.now.file.header row.now ≡ true }
        requires column { j < length (file_columns self.now.file.declared.measures) }
        ensures sound { OnOk result
            (option_and_then
            (number_fault_at self.now row.now n values.now)
            (slice_get (file_columns self.now.file.declared.measures) j) ≡ None) }
        ensures err { IfErr result
            (λ e. (e ≡ AggFault.OutOfMemory)
            ⊎ (option_and_then
            (number_fault_at self.now row.now n values.now)
            (slice_get (file_columns self.now.file.declared.measures) j) ≡ Some e)) }
    {
        let field = self.file.number_field(row, j);
        let value = self.value(values, j);
        if says(&value, field) {
            return Ok(());
        }
        let name = &self.file.columns()[j].name;
        Err(differing(alloc, n, name, field, &value))
    }

    // Whether all columns of numbers of a record do.
    fn check_numbers(
        &self,
        alloc: Global,
        row: &Record,
        n: u64,
        values: &[ValueId],
    ) -> Result<(), AggFault>
        requires { is_csv self.now.file.header row.now ≡ true }
        ensures sound { OnOk result
            (numbers_fault self.now row.now n values.now
            (file_columns self.now.file.declared.measures) ≡ None) }
        ensures err { IfErr result
            (λ e. (e ≡ AggFault.OutOfMemory)
            ⊎ (numbers_fault self.now row.now n values.now
            (file_columns self.now.file.declared.measures) ≡ Some e)) }
    {
        for j in 0..self.file.columns().len() {
            self.check_number(alloc, row, n, values, j)?;
        }
        Ok(())
    }

    // Whether a record says what the rows with its values give.
    fn check_group(
        &self,
        alloc: Global,
        row: &Record,
        n: u64,
        values: &[ValueId],
    ) -> Result<(), AggFault>
        requires { is_csv self.now.file.header row.now ≡ true }
        ensures sound { OnOk result (values_fault self.now row.now n values.now ≡ None) }
        ensures err { IfErr result
            (λ e. (e ≡ AggFault.OutOfMemory)
            ⊎ (values_fault self.now row.now n values.now ≡ Some e)) }
    {
        self.check_count(alloc, row, n, self.count(values))?;
        self.check_numbers(alloc, row, n, values)
    }

    // Checks the record of this number, after records whose values were seen. The buffers are for the values of its levels,
    // and of the table's columns.
    fn check_row(
        &self,
        alloc: Global,
        row: &Record,
        n: u64,
        seen: &Body,
        found: &mut Vec<ValueId>,
        values: &mut Vec<ValueId>,
    ) -> Result<(), AggFault>
        ensures sound { OnOk result
            (row_fault self.now.file.catalog self.now.file.declared self.now.file.header
            self.now.rows n (values_in seen.now) row.now ≡ None) }
        ensures values { OnOk result
            (values.new.items
            ≡ record_values self.now.file.catalog self.now.file.declared self.now.file.header
            row.now) }
        ensures each { OnOk result
            (length values.new.items
            ≡ length (table_columns self.now.file.catalog self.now.file.declared)) }
        ensures err { IfErr result
            (λ e. (e ≡ AggFault.OutOfMemory)
            ⊎ (row_fault self.now.file.catalog self.now.file.declared self.now.file.header
            self.now.rows n (values_in seen.now) row.now ≡ Some e)) }
    {
        if !self.file.is_csv(row) {
            return Err(AggFault::NotCsv { row: n });
        }
        self.file.read_values(row, n, found, values)?;
        if seen.get(values.as_slice()).is_some() {
            return Err(AggFault::GroupTwice { row: n });
        }
        self.check_group(alloc, row, n, values.as_slice())
    }

    // The values of no record.
    fn nothing_seen(&self, alloc: Global) -> Result<Body, OutOfMemory>
        ensures rows { IfOk result (λ seen. seen.rows ≡ []) }
        ensures columns { IfOk result
            (λ seen. seen.header.columns
            ≡ table_columns self.now.file.catalog self.now.file.declared) }
    {
        let header = copy_header(alloc, self.bodies[0].header())?;
        Body::new(alloc, header, Aggregator::Count)
    }

    /// Checks the records of a file that are left, and that each group has one.
    pub(crate) fn check_records(&self, alloc: Global, rows: &mut Rows<'_>) -> Result<(), AggFault>
        ensures sound { OnOk result
            (records_fault self.now.file.catalog self.now.file.declared self.now.file.header
            self.now.rows [] rows.old ≡ None) }
        ensures err { IfErr result
            (λ e. (e ≡ AggFault.OutOfMemory)
            ⊎ (records_fault self.now.file.catalog self.now.file.declared self.now.file.header
            self.now.rows [] rows.old ≡ Some e)) }
    {
        let mut seen = self.nothing_seen(alloc)?;
        let mut row = Record::new(alloc);
        let mut found = Vec::new(alloc);
        let mut values = Vec::new(alloc);
        self.check_each(alloc, rows, &mut seen, &mut row, &mut found, &mut values)
    }

    // Checks the records that are left, where none was seen yet. The buffers are for a record, the values of its levels, and
    // those of the table's columns.
    fn check_each(
        &self,
        alloc: Global,
        rows: &mut Rows<'_>,
        seen: &mut Body,
        row: &mut Record,
        found: &mut Vec<ValueId>,
        values: &mut Vec<ValueId>,
    ) -> Result<(), AggFault>
        requires none { seen.old.rows ≡ [] }
        requires columns { seen.old.header.columns
            ≡ table_columns self.now.file.catalog self.now.file.declared }
        ensures sound { OnOk result
            (records_fault self.now.file.catalog self.now.file.declared self.now.file.header
            self.now.rows [] rows.old ≡ None) }
        ensures err { IfErr result
            (λ e. (e ≡ AggFault.OutOfMemory)
            ⊎ (records_fault self.now.file.catalog self.now.file.declared self.now.file.header
            self.now.rows [] rows.old ≡ Some e)) }
    {
        // There are no more groups than rows, so what was seen has room for the values of each.
        let groups = self.groups();
        let mut count = 0u32;
        while rows.next(row)? {
            let n = u64::from(count) + 1;
            self.check_row(alloc, row, n, seen, found, values)?;
            seen.add(values.as_slice(), None)?;
            count += 1;
        }
        check_missing(u64::from(count), groups)
    }
}

// Whether this many groups have a record each, where this many records are stored.
fn check_missing(stored: u64, groups: u64) -> Result<(), AggFault>
    ensures sound { OnOk result (missing_fault stored groups ≡ None) }
    ensures err { IfErr result (λ e. missing_fault stored groups ≡ Some e) }
{
    if stored < groups {
        return Err(AggFault::GroupMissing {
            stored,
            computed: groups,
        });
    }
    Ok(())
}
