//! A cache in a program of one's own: it is opened from the files of the working folder and one that the program brings along,
//! and asked for the cells of a query.
#![tactic(auto)]

ghost use Rattle.std.specs.Prelude.{◌≡◌, IfOk, IsTrue};
ghost use Rattle.std.specs.List.{list_all};
ghost use Rattle.olap_meaning.specs.Legal.{is_cell};
ghost use Rattle.segment_header.specs.Widening.{Serves, WidensPlainly, are_wanted};

use cache_opening::{OpenFault, open_cache};
use cell_request::{ResolveFault, cells, resolve};
use fact_versions::Steps;
use history_core::Answer;
use line_session::Desk;
use manager_desk::ManagerDesk;
use mdx_reader::{Query, QueryFault, read_query};
use olap_meaning::{Allowed, Cell, List, OutOfMemory, ValueId, plain_text};
use outside::{Depot, DepotRefusal, Fetches, FolderDepot, noted};
use segment_header::{Widener, Widening, plain_widener, widened_plainly};
use std::alloc::{AllocError, Global};
use std::marker::Brand;
use std::sync::ledger::{Blank, Ledger};
use thiserror::Error;

const SCHEMA: &str = "sales.json";

// The most groups that the kept loads have after an answer.
const BUDGET: u64 = 1_000_000;

// The table of stores, which the program brings along.
const STORES: &str = "store_id,state,city\n1,CA,LA\n2,CA,SF\n3,WA,Seattle\n";

/// A depot of the program's own: the table of stores is here, and every other file comes from another depot. What came of each
/// name is noted, which is all that a depot owes besides the files.
#[derive(Drop)]
struct Bundle<D> {
    others: D,
    fetches: Fetches,
}

impl<D: Depot> Depot for Bundle<D> {
    ghost use Rattle.std.specs.Prelude.{None};

    ghost answers = { λ d. d.fetches.answers };

    ghost files = { λ _. None };

    fn fetch(&mut self, alloc: Global, name: &str) -> Result<List<u8>, DepotRefusal> {
        let came = if name == "store.csv" {
            stores(alloc)
        } else {
            self.others.fetch(alloc, name)
        };
        noted(&mut self.fetches, name, came)
    }
}

// The bytes of the table of stores.
fn stores(alloc: Global) -> Result<List<u8>, DepotRefusal> {
    match Vec::from_slice(alloc, STORES.as_bytes()) {
        Ok(bytes) => Ok(List::from_vec(bytes)),
        Err(_) => Err(DepotRefusal::OutOfMemory),
    }
}

/// Why there is no answer.
#[derive(Debug, Drop, Error)]
enum Failure {
    #[error("the cache was not opened")]
    Opening(#[from] OpenFault),
    #[error("this is no query")]
    NoQuery(#[from] QueryFault),
    #[error("the query means nothing here")]
    NoMeaning(#[from] ResolveFault),
    #[error("out of memory")]
    OutOfMemory(#[from] OutOfMemory),
    #[error("out of memory")]
    NoText(#[from] AllocError),
}

// The cells of a query over the catalog of a cache.
fn query_cells(alloc: Global, desk: &ManagerDesk, query: &Query) -> Result<List<Cell>, Failure>
    ensures { IfOk result
        (λ cells. IsTrue (list_all (is_cell desk.now.setting.catalog) cells)) }
{
    let axes = resolve(alloc, desk.catalog(), query)?;
    Ok(cells(alloc, desk.catalog(), &axes)?)
}

// The cells of the program's query.
fn cells_of(alloc: Global, desk: &ManagerDesk) -> Result<List<Cell>, Failure>
    ensures { IfOk result
        (λ cells. IsTrue (list_all (is_cell desk.now.setting.catalog) cells)) }
{
    let query = read_query(
        alloc,
        "SELECT {[Time].[1997], [Time].[1998]} ON COLUMNS, [Store].[State].Members ON ROWS FROM [Sales]",
    )?;
    query_cells(alloc, desk, &query)
}

// The answer to the cells, asked for by seat 1: the base batches are appended by seat 0. Loads that are missing are run
// first, which allow what the widener answers; and the rows that they read are counted.
fn answer_to<L: Ledger>(
    alloc: Global,
    desk: &mut ManagerDesk,
    cells: &[Cell],
    widener: &Widener,
    steps: &mut Steps<L>,
) -> Result<Answer, OutOfMemory>
    requires cells { IsTrue (list_all (is_cell desk.old.setting.catalog) cells.now) }
{
    desk.ask(alloc, cells, widener, steps)
}

// What an answer tells of each of its cells.
fn told(alloc: Global, answer: &Answer) -> Result<String, Failure> {
    let mut text = format!(in alloc; "at position {}", answer.position)?;
    for answered in answer.cells.as_slice() {
        let value = plain_text(alloc, &answered.value)?;
        text.push_str(format!(in alloc;
            ", '{value}' in version {}",
            answered.version.0
        )?.as_str())?;
    }
    Ok(text)
}

// What the answer to the program's query tells.
fn asked<L: Ledger>(
    alloc: Global,
    desk: &mut ManagerDesk,
    widener: &Widener,
    steps: &mut Steps<L>,
) -> Result<String, Failure> {
    let cells = cells_of(alloc, desk)?;
    let answer = answer_to(alloc, desk, cells.as_slice(), widener, steps)?;
    told(alloc, &answer)
}

// Opens the cache, and asks. The rows that either reads are counted.
fn run<D: Depot, L: Ledger>(
    alloc: Global,
    depot: &mut D,
    widener: &Widener,
    blank: Blank,
) -> Result<String, Failure>
    requires name { blank.name ≡ L.name }
    requires parts { blank.parts ≡ L.parts }
    requires one { blank.parts ≡ 1 }
{
    let mut steps: Steps<L> = Steps::new(blank);
    let mut desk = ManagerDesk::new(open_cache(alloc, depot, SCHEMA, BUDGET, &mut steps)?);
    asked(alloc, &mut desk, widener, &mut steps)
}

fn main(rt: HostRuntime) -> anyhow::Result<()> {
    let mut depot = Bundle {
        others: FolderDepot::new(&rt),
        fetches: Fetches::new(),
    };
    let alloc = rt.alloc();
    let widen: Widening = Box::new(
        alloc,
        move |wanted: &[ValueId], count: u32| -> Result<Allowed, OutOfMemory>
            requires { IsTrue (are_wanted wanted.now count) }
            ensures plain { IfOk result (WidensPlainly wanted.now count) }
            ensures serves { IfOk result (Serves wanted.now count) }
        { widened_plainly(alloc, wanted, count) },
    )?;
    let widener = plain_widener(widen);
    let text = run::<_, Brand>(alloc, &mut depot, &widener, Blank::new(1))?;
    println!(rt; "{text}")?;
    Ok(())
}
