//! What a catalog says of rows: the contract of a function that does nothing.
ghost use Rattle.fact_reader.specs.Laws.{RowsAreValued};

use olap_catalog::Catalog;

/// Each row of a cube has a value in each column. This costs nothing.
pub fn rows_are_valued(catalog: &Catalog)
    ensures { RowsAreValued catalog.now }
{
    catalog.leaves_have_values();
}
