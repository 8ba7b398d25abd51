//! Which other cells a plan is good for.
ghost use Rattle.std.specs.Prelude.{◌≡◌, IsTrue};
ghost use Rattle.std.specs.List.{list_all};
ghost use Rattle.rollup_plan.specs.Serving as serving;
ghost use Rattle.rollup_plan.specs.Serving.{ServesAlike};

use crate::plan::{Part, Plan};
use cache_flush::Shelf;
use olap_meaning::Cell;

// Whether a load is kept, covers a cell, and no region shuts it off.
fn is_served<S: Shelf>(shelf: &S, load: u64, cell: &Cell) -> bool
    ensures { result ≡ serving.is_served (S.loads shelf.now) cell.now load }
{
    match shelf.kept(load) {
        None => false,
        Some(kept) => kept.is_live(shelf.shut_list(), cell),
    }
}

fn are_served<S: Shelf>(shelf: &S, parts: &[Part], cell: &Cell) -> bool
    ensures { result
        ≡ list_all (λ part. serving.is_served (S.loads shelf.now) cell.now part.load) parts.now }
{
    for part in parts {
        if !is_served(shelf, part.load, cell) {
            return false;
        }
    }
    true
}

impl Plan {
    /// Whether each planned load is kept, covers a cell and is live for it. Where the plan was found for another cell of
    /// the same cube, measure and columns, this cell is rolled up by it too. It may be of an older version then than a plan
    /// that is found for this cell itself. It takes no memory.
    pub fn serves<S: Shelf>(&self, cell: &Cell, shelf: &S) -> bool
        ensures served { result ≡ serving.plan_serves (S.loads shelf.now) self.now cell.now }
        ensures rolls { IsTrue result → ServesAlike (S.loads shelf.now) self.now cell.now }
    {
        are_served(shelf, self.parts.as_slice(), cell)
    }
}
