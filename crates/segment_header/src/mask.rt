//! The mask of columns: the bit c mod 64 for each column c. The same columns have the same mask; other columns may have it too.
ghost use Rattle.std.specs.Prelude.{◌≡◌};
ghost use Rattle.segment_header.specs.Masks as masks;

use olap_meaning::{Cell, ColumnId, Header};

// A mask with the bit of one column more.
fn with_column(mask: u64, column: ColumnId) -> u64
    ensures { result ≡ masks.with_column mask column }
{
    mask | (1 << (column.0 % 64))
}

/// The mask of a header's columns. It takes no memory.
pub fn header_mask(header: &Header) -> u64
    ensures { result ≡ masks.header_mask header.now }
{
    let mut mask = 0;
    for own in header.columns.as_slice() {
        mask = with_column(mask, own.0);
    }
    mask
}

/// The mask of a cell's columns. It takes no memory.
pub fn cell_mask(cell: &Cell) -> u64
    ensures { result ≡ masks.cell_mask cell.now }
{
    let mut mask = 0;
    for pair in cell.at.as_slice() {
        mask = with_column(mask, pair.0);
    }
    mask
}
