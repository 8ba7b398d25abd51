//! Sources of cells as plain, slow code: exact ones, and loads that are rolled up. Tests compare faster bodies with it.
ghost use Rattle.std.specs.Prelude.{◌≡◌, ◌&&◌, ◌↔◌, slice_get, option_and_then, IsTrue};
ghost use Rattle.std.specs.List.{list_any, list_all};
ghost use Rattle.olap_meaning.specs.History as meaning;
ghost use Rattle.olap_meaning.specs.Legal as legal;
ghost use Rattle.olap_meaning.specs.Rolled as rolled;
ghost use Rattle.olap_plain.specs.Entries.{entries};
ghost use Rattle.olap_plain.specs.SourceTests as tests;
ghost use Rattle.olap_plain.specs.SourceTests.{offer_of};

use crate::PlainEntry;
use crate::catalogs::value_count;
use crate::history::{exact_source, live, names_column};
use crate::offers::{PlainOffer, allows_in, fits, load_offer};
use olap_meaning::tables::Catalog;
use olap_meaning::{Aggregator, Cell, ColumnId};

fn adds_up(aggregator: Aggregator) -> bool
    ensures { result ≡ rolled.adds_up aggregator }
{
    match aggregator {
        Aggregator::DistinctCount => false,
        _ => true,
    }
}

fn can_add(catalog: &Catalog, cell: &Cell) -> bool
    ensures { result ≡ tests.can_add catalog.now cell.now }
{
    match catalog.cubes.get(cell.cube.0 as usize) {
        None => false,
        Some(cube) => match cube.measures.get(cell.measure.0 as usize) {
            None => false,
            Some(measure) => adds_up(measure.aggregator),
        },
    }
}

fn are_live(history: &[PlainEntry], cell: &Cell, loads: &[u64]) -> bool
    ensures { result ≡ list_all (λ j. meaning.live (entries history.now) j cell.now) loads.now }
{
    loads.iter().all(|j| live(history, *j, cell))
}

fn load_fits(
    history: &[PlainEntry],
    cell: &Cell,
    split: ColumnId,
    first: &PlainOffer,
    j: u64,
) -> bool
    ensures { result
        ≡ meaning.is_some_and
        (rolled.fits cell.now split (offer_of first.now)) (rolled.offered (entries history.now) j) }
{
    match load_offer(history, j) {
        None => false,
        Some(offer) => fits(cell, split, first, &offer),
    }
}

fn load_allows(history: &[PlainEntry], column: ColumnId, value: usize, j: u64) -> bool
    ensures { result
        ≡ meaning.is_some_and
        (λ offer. rolled.allows_in offer.header column value)
        (rolled.offered (entries history.now) j) }
{
    match load_offer(history, j) {
        None => false,
        Some(offer) => allows_in(offer.header, column, value),
    }
}

fn all_fit(
    history: &[PlainEntry],
    cell: &Cell,
    split: ColumnId,
    first: &PlainOffer,
    loads: &[u64],
) -> bool
    ensures { result
        ≡ list_all
        (λ j. meaning.is_some_and
        (rolled.fits cell.now split (offer_of first.now)) (rolled.offered (entries history.now) j))
        loads.now }
{
    loads
        .iter()
        .all(|j| load_fits(history, cell, split, first, *j))
}

fn some_load_allows(history: &[PlainEntry], loads: &[u64], column: ColumnId, value: usize) -> bool
    ensures { result ≡ tests.some_load_allows (entries history.now) loads.now column value }
{
    loads
        .iter()
        .any(|j| load_allows(history, column, value, *j))
}

fn hold_all(catalog: &Catalog, history: &[PlainEntry], loads: &[u64], split: ColumnId) -> bool
    ensures { result
        ≡ rolled.all_below (rolled.value_count catalog.now split)
        (tests.some_load_allows (entries history.now) loads.now split) }
{
    for value in 0..value_count(catalog, split) {
        if !some_load_allows(history, loads, split, value) {
            return false;
        }
    }
    true
}

fn roll_along(
    catalog: &Catalog,
    history: &[PlainEntry],
    cell: &Cell,
    loads: &[u64],
    first: &PlainOffer,
    split: ColumnId,
) -> bool
    ensures { result
        ≡ tests.roll_along catalog.now (entries history.now) cell.now loads.now
        (offer_of first.now) split }
{
    !names_column(cell, split)
        && all_fit(history, cell, split, first, loads)
        && hold_all(catalog, history, loads, split)
}

fn roll_from(
    catalog: &Catalog,
    history: &[PlainEntry],
    cell: &Cell,
    loads: &[u64],
    first: &PlainOffer,
) -> bool
    ensures { result
        ≡ tests.roll_from catalog.now (entries history.now) cell.now loads.now
        (offer_of first.now) }
{
    first.header.columns.as_slice().iter().any(|own| roll_along(
        catalog, history, cell, loads, first, own.0,
    ))
}

fn roll_up(catalog: &Catalog, history: &[PlainEntry], cell: &Cell, loads: &[u64]) -> bool
    ensures { result
        ≡ meaning.is_some_and
        (tests.roll_from catalog.now (entries history.now) cell.now loads.now)
        (option_and_then (rolled.offered (entries history.now)) (slice_get loads.now 0)) }
{
    match loads.first() {
        None => false,
        Some(j) => match load_offer(history, *j) {
            None => false,
            Some(first) => roll_from(catalog, history, cell, loads, &first),
        },
    }
}

fn rolled_passes(catalog: &Catalog, history: &[PlainEntry], cell: &Cell, loads: &[u64]) -> bool
    ensures { result ≡ tests.rolled_test catalog.now (entries history.now) cell.now loads.now }
{
    can_add(catalog, cell)
        && are_live(history, cell, loads)
        && roll_up(catalog, history, cell, loads)
}

/// Whether some loads are a rolled source of a cell.
pub fn is_rolled_source(
    catalog: &Catalog,
    history: &[PlainEntry],
    cell: &Cell,
    loads: &[u64],
) -> bool
    ensures { IsTrue result
        ↔ rolled.IsRolledSource catalog.now (entries history.now) cell.now loads.now }
{
    rolled_passes(catalog, history, cell, loads)
}

/// Whether some loads are a source of a cell: its exact source alone, or, where it has none, a rolled source.
pub fn is_source(catalog: &Catalog, history: &[PlainEntry], cell: &Cell, loads: &[u64]) -> bool
    ensures { IsTrue result ↔ legal.IsSource catalog.now (entries history.now) cell.now loads.now }
{
    match exact_source(history, cell) {
        None => is_rolled_source(catalog, history, cell, loads),
        Some(j) => match loads {
            [k] => *k == j,
            _ => false,
        },
    }
}

fn live_allows(
    history: &[PlainEntry],
    cell: &Cell,
    split: ColumnId,
    first: &PlainOffer,
    value: usize,
    j: u64,
) -> bool
    ensures { result
        ≡ (meaning.live (entries history.now) j cell.now
        && meaning.is_some_and
        (λ other. rolled.fits cell.now split (offer_of first.now) other
        && rolled.allows_in other.header split value)
        (rolled.offered (entries history.now) j)) }
{
    match load_offer(history, j) {
        None => false,
        Some(other) => live(history, j, cell)
            && fits(cell, split, first, &other)
            && allows_in(other.header, split, value),
    }
}

fn some_live_allows(
    history: &[PlainEntry],
    cell: &Cell,
    split: ColumnId,
    first: &PlainOffer,
    value: usize,
) -> bool
    ensures { result
        ≡ list_any
        (λ other. rolled.fits cell.now split (offer_of first.now) other
        && rolled.allows_in other.header split value)
        (rolled.live_offers (entries history.now) cell.now) }
{
    let mut j = history.len() as u64;
    while j > 0 {
        let found = live_allows(history, cell, split, first, value, j);
        if found {
            return true;
        }
        j -= 1;
    }
    false
}

fn fitting_hold(
    catalog: &Catalog,
    history: &[PlainEntry],
    cell: &Cell,
    first: &PlainOffer,
    split: ColumnId,
) -> bool
    ensures { result
        ≡ rolled.fitting_hold (rolled.value_count catalog.now) cell.now
        (rolled.live_offers (entries history.now) cell.now) (offer_of first.now) split }
{
    for value in 0..value_count(catalog, split) {
        if !some_live_allows(history, cell, split, first, value) {
            return false;
        }
    }
    true
}

fn can_split(
    catalog: &Catalog,
    history: &[PlainEntry],
    cell: &Cell,
    first: &PlainOffer,
    split: ColumnId,
) -> bool
    ensures { result
        ≡ rolled.can_split (rolled.value_count catalog.now) cell.now
        (rolled.live_offers (entries history.now) cell.now) (offer_of first.now) split }
{
    !names_column(cell, split)
        && fits(cell, split, first, first)
        && fitting_hold(catalog, history, cell, first, split)
}

fn can_begin(catalog: &Catalog, history: &[PlainEntry], cell: &Cell, first: &PlainOffer) -> bool
    ensures { result
        ≡ rolled.can_begin (rolled.value_count catalog.now) cell.now
        (rolled.live_offers (entries history.now) cell.now) (offer_of first.now) }
{
    first
        .header
        .columns
        .as_slice()
        .iter()
        .any(|own| can_split(catalog, history, cell, first, own.0))
}

fn live_begins(catalog: &Catalog, history: &[PlainEntry], cell: &Cell, j: u64) -> bool
    ensures { result
        ≡ (meaning.live (entries history.now) j cell.now
        && meaning.is_some_and
        (rolled.can_begin (rolled.value_count catalog.now) cell.now
        (rolled.live_offers (entries history.now) cell.now))
        (rolled.offered (entries history.now) j)) }
{
    match load_offer(history, j) {
        None => false,
        Some(first) => live(history, j, cell) && can_begin(catalog, history, cell, &first),
    }
}

fn some_live_begins(catalog: &Catalog, history: &[PlainEntry], cell: &Cell) -> bool
    ensures { result
        ≡ list_any
        (rolled.can_begin (rolled.value_count catalog.now) cell.now
        (rolled.live_offers (entries history.now) cell.now))
        (rolled.live_offers (entries history.now) cell.now) }
{
    let mut j = history.len() as u64;
    while j > 0 {
        let found = live_begins(catalog, history, cell, j);
        if found {
            return true;
        }
        j -= 1;
    }
    false
}

/// Whether a cell has a rolled source.
pub fn has_rolled_source(catalog: &Catalog, history: &[PlainEntry], cell: &Cell) -> bool
    ensures { result ≡ rolled.has_rolled_source catalog.now (entries history.now) cell.now }
{
    can_add(catalog, cell) && some_live_begins(catalog, history, cell)
}

/// Whether a cell has a source, exact or rolled.
pub fn has_source(catalog: &Catalog, history: &[PlainEntry], cell: &Cell) -> bool
    ensures { result ≡ legal.has_source catalog.now (entries history.now) cell.now }
{
    exact_source(history, cell).is_some() || has_rolled_source(catalog, history, cell)
}
