//! Calls of many seats, as words.
ghost use Rattle.std.specs.Prelude.{◌≡◌, ◌<◌, IfOk, IsTrue, length};
ghost use Rattle.std.specs.List.{list_all};
ghost use Rattle.olap_meaning.specs.Legal.{is_cell as is_known};
ghost use Rattle.manager_calls.specs.Runs.{MayCall};

use crate::entries::numbered_cell;
use crate::lines::{Wrong, number, words};
use crate::opened::batch;
use crate::regions::region_of;
use history_core::is_cell;
use manager_calls::Call;
use olap_catalog::Catalog;
use olap_meaning::{Cell, CubeId, List, Version};
use std::alloc::Global;
use std::rt::Files;

// Whether each of some cells is one of a catalog.
fn are_known(catalog: &Catalog, cells: &[Cell]) -> bool
    ensures { result ≡ list_all (is_known catalog.now) cells.now }
{
    cells.iter().all(|cell| is_cell(catalog, cell))
}

fn append(
    rt: &(impl Files + AllocGlobal),
    catalog: &Catalog,
    seat: u32,
    file: &str,
) -> Result<Call, Wrong>
    ensures { IfOk result (MayCall catalog.now) }
{
    Ok(Call::Append {
        seat,
        cube: CubeId(0),
        batch: batch(rt, catalog, file)?,
    })
}

// The cells of words.
fn cells_of(alloc: Global, words: &[&str]) -> Result<List<Cell>, Wrong> {
    let mut cells = List::new(alloc);
    for word in words {
        cells.push(numbered_cell(alloc, word)?)?;
    }
    Ok(cells)
}

fn look(alloc: Global, catalog: &Catalog, seat: u32, words: &[&str]) -> Result<Call, Wrong>
    ensures { IfOk result (MayCall catalog.now) }
{
    let cells = cells_of(alloc, words)?;
    if !are_known(catalog, cells.as_slice()) {
        return Err(Wrong::Words("an unknown cell"));
    }
    Ok(Call::Look { seat, cells })
}

fn flush(alloc: Global, catalog: &Catalog, seat: u32, text: &str) -> Result<Call, Wrong>
    ensures { IfOk result (MayCall catalog.now) }
{
    Ok(Call::Flush {
        seat,
        region: region_of(alloc, catalog, text)?,
    })
}

// The place of an aggregate table of the schema.
fn table_of(catalog: &Catalog, word: &str) -> Result<u32, Wrong>
    ensures { IfOk result (λ table. table < length catalog.now.schema.aggregates) }
{
    let table = number(word)?;
    if (table as usize) < catalog.schema().aggregates.len() {
        Ok(table)
    } else {
        Err(Wrong::Words("no table"))
    }
}

fn build(catalog: &Catalog, seat: u32, table: &str) -> Result<Call, Wrong>
    ensures { IfOk result (MayCall catalog.now) }
{
    let table = table_of(catalog, table)?;
    Ok(Call::BuildAgg { seat, table })
}

fn install(catalog: &Catalog, seat: u32, table: &str, version: &str) -> Result<Call, Wrong>
    ensures { IfOk result (MayCall catalog.now) }
{
    let table = table_of(catalog, table)?;
    let version = Version(number(version)?);
    Ok(Call::Install {
        seat,
        table,
        version,
    })
}

// The call of a word, a number and further words.
fn call_by(
    rt: &(impl Files + AllocGlobal),
    catalog: &Catalog,
    kind: &str,
    first: u32,
    rest: &[&str],
) -> Result<Call, Wrong>
    ensures { IfOk result (MayCall catalog.now) }
{
    match (kind, rest) {
        ("append", [file]) => append(rt, catalog, first, file),
        ("look", cells) => look(rt.alloc(), catalog, first, cells),
        ("flush", [text]) => flush(rt.alloc(), catalog, first, text),
        ("build", [table]) => build(catalog, first, table),
        ("install", [table, version]) => install(catalog, first, table, version),
        ("show", []) => Ok(Call::Show { seat: first }),
        ("deliver", []) => Ok(Call::Deliver {
            job: first as usize,
        }),
        ("abandon", []) => Ok(Call::Abandon {
            job: first as usize,
        }),
        _ => Err(Wrong::Words("no call")),
    }
}

/// The call of a line.
pub(crate) fn call_of(
    rt: &(impl Files + AllocGlobal),
    catalog: &Catalog,
    asked: &str,
) -> Result<Call, Wrong>
    ensures { IfOk result (MayCall catalog.now) }
{
    let words = words(rt.alloc(), asked)?;
    let [kind, first, rest @ ..] = words.as_slice() else {
        return Err(Wrong::Words("no call"));
    };
    call_by(rt, catalog, kind, number(first)?, rest)
}
