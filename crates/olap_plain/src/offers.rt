//! What the loads of a history offer, and whether offers fit one another, as plain, slow code.
ghost use Rattle.std.specs.Prelude.{◌≡◌, map, bytes_eq, option_map};
ghost use Rattle.olap_meaning.specs.Covering as covering;
ghost use Rattle.olap_meaning.specs.History as meaning;
ghost use Rattle.olap_meaning.specs.Rolled as rolled;
ghost use Rattle.olap_plain.specs.Entries.{entries, entry_of};
ghost use Rattle.olap_plain.specs.SourceTests.{offer_of};

use crate::PlainEntry;
use crate::history::{entry_at, header_covers, names_column};
use olap_meaning::{Allowed, Cell, ColumnId, Header, ValueId, Version};

/// What a load offers.
#[derive(Clone, Copy)]
pub struct PlainOffer<'a> {
    pub header: &'a Header,
    pub version: Version,
}

fn is_any(allowed: &Allowed) -> bool
    ensures { result ≡ rolled.is_any allowed.now }
{
    match allowed {
        Allowed::Any => true,
        Allowed::Set(_) => false,
    }
}

/// Whether a header allows any value in each column that a cell lacks, except for the split.
pub fn is_open_but(cell: &Cell, split: ColumnId, header: &Header) -> bool
    ensures { result ≡ rolled.is_open_but cell.now split header.now }
{
    header.columns.as_slice().iter().all(|own| own.0 == split
        || names_column(cell, own.0)
        || is_any(&own.1))
}

fn is_number_among(values: &[ValueId], value: usize) -> bool
    ensures { result ≡ covering.among values.now value }
{
    values.iter().any(|v| v.0 as usize == value)
}

pub(crate) fn allows_number(allowed: &Allowed, value: usize) -> bool
    ensures { result ≡ covering.allows allowed.now value }
{
    match allowed {
        Allowed::Any => true,
        Allowed::Set(values) => is_number_among(values.as_slice(), value),
    }
}

/// Whether a header allows the value of a number in one of its columns.
pub fn allows_in(header: &Header, column: ColumnId, value: usize) -> bool
    ensures { result ≡ rolled.allows_in header.now column value }
{
    header
        .columns
        .as_slice()
        .iter()
        .any(|own| own.0 == column && allows_number(&own.1, value))
}

fn have_same_columns(some: &[(ColumnId, Allowed)], others: &[(ColumnId, Allowed)]) -> bool
    ensures { result ≡ bytes_eq (map (λ own. own.0) some.now) (map (λ own. own.0) others.now) }
{
    match (some, others) {
        ([], []) => true,
        ([one, some_rest @ ..], [other, others_rest @ ..]) => {
            one.0 == other.0 && have_same_columns(some_rest, others_rest)
        }
        _ => false,
    }
}

/// Whether an offer fits another along a split.
pub fn fits<'a>(
    cell: &Cell,
    split: ColumnId,
    first: &PlainOffer<'a>,
    other: &PlainOffer<'a>,
) -> bool
    ensures { result ≡ rolled.fits cell.now split (offer_of first.now) (offer_of other.now) }
{
    other.version == first.version
        && have_same_columns(
            other.header.columns.as_slice(),
            first.header.columns.as_slice(),
        )
        && header_covers(other.header, cell)
        && is_open_but(cell, split, other.header)
}

fn offer_in(entry: &PlainEntry) -> Option<PlainOffer>
    ensures { option_map offer_of result
        ≡ option_map
        (λ load. record { header = load.header; version = load.version })
        (meaning.started (entry_of entry.now)) }
{
    match entry {
        PlainEntry::Start {
            who: _,
            header,
            version,
            reason: _,
        } => Some(PlainOffer {
            header,
            version: *version,
        }),
        _ => None,
    }
}

/// What a load offers.
pub fn load_offer(history: &[PlainEntry], j: u64) -> Option<PlainOffer>
    ensures { option_map offer_of result ≡ rolled.offered (entries history.now) j }
{
    match entry_at(history, j) {
        None => None,
        Some(entry) => offer_in(entry),
    }
}
