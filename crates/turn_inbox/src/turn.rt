// `value` has a file of its own: its clause names the row of `Turn`, which the file that declares `Turn` cannot import.
ghost use Rattle.std.specs.Prelude.{◌≡◌};
ghost use Rattle.std.specs.Borrow.{Lends, sem};
ghost use Rattle.turn_inbox.specs.contracts.seats.Turn.{the_row};

use crate::chronicle::Chronicle;
use crate::seats::Turn;

impl<M: Chronicle> Turn<M> {
    /// The value, to be changed. When the borrow ends, the turn has what was written through it.
    pub fn value(&mut self) -> &mut M
        ensures* writes_back { sem 𝓛 (Lends (the_row M.row M.Entry.row M.Basis.row M.Chronicle) M.row self.entry result (λ w. record self.old { value = w })) }
        ensures value { result.now ≡ self.old.value }
    {
        &mut self.value
    }
}
