//! The masks under which loads stand in the lists: the bit c for each column c, where all columns are below 64, and else all bits.
//! So loads with other columns have other masks, except those under all bits.
ghost use Rattle.std.specs.Prelude.{◌≡◌};
ghost use Rattle.std.specs.List.{list_any};
ghost use Rattle.segment_index.specs.Masks as masks;

use olap_meaning::{Cell, ColumnId, Header};
use segment_header::{cell_mask, header_mask};

/// The mask of columns of which one is 64 or greater.
pub(crate) const ALL_BITS: u64 = u64::MAX;

// Whether a column is too great for a bit of its own.
fn is_beyond(column: ColumnId) -> bool
    ensures { result ≡ masks.is_beyond column }
{
    column.0 >= 64
}

// Whether a column of a header is.
fn header_goes_beyond(header: &Header) -> bool
    ensures { result ≡ list_any (λ own. masks.is_beyond own.0) header.now.columns }
{
    header.columns.as_slice().iter().any(|own| is_beyond(own.0))
}

// Whether a column of a cell is.
fn cell_goes_beyond(cell: &Cell) -> bool
    ensures { result ≡ list_any (λ pair. masks.is_beyond pair.0) cell.now.at }
{
    cell.at.as_slice().iter().any(|pair| is_beyond(pair.0))
}

/// The mask under which a load of a header stands. It takes no memory.
#[tactic(auto, using(crate::proofs::MaskFacts::any_mapped))]
pub(crate) fn header_list_mask(header: &Header) -> u64
    ensures { result ≡ masks.header_list_mask header.now }
{
    if header_goes_beyond(header) {
        ALL_BITS
    } else {
        header_mask(header)
    }
}

/// The mask of a load with just a cell's columns. It takes no memory.
#[tactic(auto, using(crate::proofs::MaskFacts::any_mapped))]
pub(crate) fn cell_list_mask(cell: &Cell) -> u64
    ensures { result ≡ masks.cell_list_mask cell.now }
{
    if cell_goes_beyond(cell) {
        ALL_BITS
    } else {
        cell_mask(cell)
    }
}
