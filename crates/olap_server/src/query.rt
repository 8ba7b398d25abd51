//! A query of one file.
ghost use Rattle.std.specs.Prelude.{◌≡◌};

use olap_meaning::{Aggregator, Text};
use std::marker::Model;

/// The aggregate of a column over the records whose fields equal the pairs, each a column and a field.
#[derive(Drop)]
pub(crate) struct Query<'a> {
    column: &'a str,
    aggregator: Aggregator,
    pairs: &'a [(Text, Text)],
}

impl<'a> Model for Query<'a> {
    ghost use Rattle.olap_meaning.specs.FileQuery.{FileQuery};

    ghost Value = { FileQuery };

    ghost view = { λ q. record { column = q.column.now; aggregator = q.aggregator; pairs = q.pairs.now } };
}

impl<'a> Query<'a> {
    pub(crate) fn new(
        column: &'a str,
        aggregator: Aggregator,
        pairs: &'a [(Text, Text)],
    ) -> Query<'a>
        ensures { result
            ≡ record {
              column = column.entry.now;
              aggregator = aggregator;
              pairs = pairs.entry.now;
            } }
    {
        Query {
            column,
            aggregator,
            pairs,
        }
    }

    pub(crate) fn column(&self) -> &str
        ensures { result.now ≡ self.now.column }
    {
        self.column
    }

    pub(crate) fn aggregator(&self) -> Aggregator
        ensures { result ≡ self.now.aggregator }
    {
        self.aggregator
    }

    pub(crate) fn pairs(&self) -> &[(Text, Text)]
        ensures { result.now ≡ self.now.pairs }
    {
        self.pairs
    }
}
