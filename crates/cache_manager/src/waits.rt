//! The loads in flight that cells await.
ghost use Rattle.std.specs.Prelude.{ℕ, ◌≡◌, IfOk, IsTrue};
ghost use Rattle.olap_meaning.specs.Covering.{among};
ghost use Rattle.olap_meaning.specs.History as history;
ghost use Rattle.olap_meaning.specs.Legal.{rise};
ghost use Rattle.history_core.specs.Groups.{awaited_loads, unawaited};
ghost use Rattle.cell_groups.specs.Lent.{lent};

use crate::manager::Manager;
use cache_flush::Shelf;
use olap_meaning::{Cell, List, OutOfMemory};

impl Manager {
    /// The load in flight that a cell awaits, if it awaits one. It takes no memory.
    fn awaited(&self, cell: &Cell) -> Option<u64>
        ensures { result ≡ history.awaited_load self.now.entries cell.now }
    {
        self.flights.flying(self.shelf.shut_list(), cell)
    }

    /// Those of some cells that await no load in flight, in order.
    pub(crate) fn unawaited<'c>(&self, cells: &[&'c Cell]) -> Result<Vec<&'c Cell>, OutOfMemory>
        ensures { IfOk result
            (λ found. lent found.items ≡ unawaited self.now.entries (lent cells.now)) }
    {
        let mut found = Vec::new(self.alloc);
        for cell in cells {
            if self.awaited(cell).is_none() {
                found.push(*cell)?;
            }
        }
        Ok(found)
    }

    /// The loads that some cells await, each where its cell awaits one.
    fn awaited_by(&self, cells: &[&Cell]) -> Result<Vec<u64>, OutOfMemory>
        ensures { IfOk result
            (λ found. found.items ≡ awaited_loads self.now.entries (lent cells.now)) }
    {
        let mut found = Vec::new(self.alloc);
        for cell in cells {
            if let Some(load) = self.awaited(cell) {
                found.push(load)?;
            }
        }
        Ok(found)
    }

    /// The loads that some cells await, rising.
    pub(crate) fn awaited_loads(&self, cells: &[&Cell]) -> Result<List<u64>, OutOfMemory>
        ensures rising { IfOk result (λ loads. IsTrue (rise loads)) }
        ensures own { IfOk result (λ loads. (load : ℕ) → among loads load
            ≡ among (awaited_loads self.now.entries (lent cells.now)) load) }
    {
        let mut found = self.awaited_by(cells)?;
        found.sort_unstable();
        found.dedup();
        Ok(List::from_vec(found))
    }
}
