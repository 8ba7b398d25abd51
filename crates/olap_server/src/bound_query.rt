//! A query over the header of a file: where its columns stand, and what it takes from a record.
ghost use Rattle.std.specs.Prelude.{◌≡◌, ◌⊎◌, ◌<◌, Some, None, true, length, map, IfOk, IfErr};
ghost use Rattle.olap_meaning.specs.Records.{column_place, field_in, number, missing_column};
ghost use Rattle.olap_meaning.specs.FileQuery.{header_fault, record_fault, is_asked};
ghost use Rattle.olap_server.specs.Faults.{TellsFault, MissesColumn};

use crate::fault::CellFault;
use crate::query::Query;
use csv_records::{Record, number};
use olap_meaning::{Aggregator, ROW_LIMIT, Text};
use std::alloc::Global;
use std::marker::Model;

/// A query over the header of a file.
#[derive(Drop)]
pub(crate) struct BoundQuery<'a> {
    query: Query<'a>,
    header: Record,
    column: usize,
    filters: Vec<usize>,
}

impl<'a> Model for BoundQuery<'a> {
    ghost use Rattle.olap_server.specs.Bound.{Bound, ArePlaced};

    ghost Value = { Bound };

    ghost view = { λ b. record { query = b.query; header = b.header } };

    ghost invariant = { λ b. ArePlaced b.query b.header b.column b.filters.items };
}

// Where the columns of the pairs stand. The first that is not there is the fault.
fn place_filters(
    alloc: Global,
    header: &Record,
    pairs: &[(Text, Text)],
) -> Result<Vec<usize>, CellFault>
    ensures places { IfOk result (λ v.
        map (λ place. Some place) v.items ≡ map (λ pair. column_place pair.0 header.now) pairs.now) }
    ensures all_there { IfOk result
        (λ _. missing_column (map (λ pair. pair.0) pairs.now) header.now ≡ None) }
    ensures fault { IfErr result (λ e. (e ≡ CellFault.OutOfMemory)
        ⊎ MissesColumn e (missing_column (map (λ pair. pair.0) pairs.now) header.now)) }
{
    let mut places = Vec::new(alloc);
    for pair in pairs {
        let name = pair.0.as_str();
        let Some(place) = header.find(name) else {
            return Err(CellFault::missing_column(alloc, name));
        };
        places.push(place)?;
    }
    Ok(places)
}

impl<'a> BoundQuery<'a> {
    /// Finds the columns of a query in a header.
    pub(crate) fn bind(
        alloc: Global,
        query: Query<'a>,
        header: Record,
    ) -> Result<BoundQuery<'a>, CellFault>
        ensures bound { IfOk result (λ b. b ≡ record { query = query.entry; header = header }) }
        ensures sound { IfOk result (λ _. header_fault query.entry header ≡ None) }
        ensures fault { IfErr result (λ e. (e ≡ CellFault.OutOfMemory)
            ⊎ TellsFault e (header_fault query.entry header)) }
    {
        if !header.is_csv(&header) {
            return Err(CellFault::NotCsv { row: 0 });
        }
        let Some(column) = header.find(query.column()) else {
            return Err(CellFault::missing_column(alloc, query.column()));
        };
        let filters = place_filters(alloc, &header, query.pairs())?;
        Ok(BoundQuery {
            query,
            header,
            column,
            filters,
        })
    }

    /// How the values are summed up.
    pub(crate) fn aggregator(&self) -> Aggregator
        ensures { result ≡ self.now.query.aggregator }
    {
        self.query.aggregator()
    }

    /// The value of the column in the record of this number: None is NULL. The faults of the record are seen here, whether
    /// the pairs ask for it or not.
    pub(crate) fn value(
        &self,
        alloc: Global,
        row: &Record,
        n: u64,
    ) -> Result<Option<i64>, CellFault>
        ensures value { IfOk result
            (λ v. v ≡ number (field_in self.now.header self.now.query.column row.now)) }
        ensures sound { IfOk result
            (λ _. record_fault self.now.query self.now.header n row.now ≡ None) }
        ensures fault { IfErr result (λ e. (e ≡ CellFault.OutOfMemory)
            ⊎ TellsFault e (record_fault self.now.query self.now.header n row.now)) }
    {
        if !row.is_csv(&self.header) {
            return Err(CellFault::NotCsv { row: n });
        }
        if n > u64::from(ROW_LIMIT) {
            return Err(CellFault::TooManyRows {
                total: n,
                limit: ROW_LIMIT,
            });
        }
        let field = row.field(self.column);
        if field.is_empty() {
            return Ok(None);
        }
        match number(field) {
            Some(value) => Ok(Some(value)),
            None => Err(CellFault::not_number(alloc, n, self.query.column())),
        }
    }

    /// Whether a record's fields equal the pairs.
    pub(crate) fn asks_for(&self, row: &Record) -> bool
        requires { length row.now ≡ length self.now.header }
        ensures { result ≡ is_asked self.now.query self.now.header row.now }
    {
        for (i, pair) in self.query.pairs().iter().enumerate() {
            if pair.1.as_str().as_bytes() != row.field(self.filters[i]) {
                return false;
            }
        }
        true
    }
}
