ghost use Rattle.std.specs.Prelude.{◌≡◌, ◌≤◌, ◌++◌, [], ◌∷◌, length, IfErr, ◌↔◌, MatchResult};
ghost use Rattle.turn_inbox.specs.declared.ledger.AddFault.TheVariants.{Full};

use crate::chronicle::Chronicle;
use std::alloc::Global;

/// An entry of a ledger: a number that a seat wrote.
#[derive(Clone, Copy, Drop)]
pub struct Mark {
    pub seat: u32,
    pub number: u64,
}

/// Why a mark was not added.
#[derive(Clone, Copy, Drop)]
pub enum AddFault {
    /// The ledger has as many marks as its limit.
    Full,
    /// There is no memory for one more.
    OutOfMemory,
}

/// A list of marks that is not longer than its limit: a small value with a history.
#[derive(Drop)]
pub struct Ledger {
    pub marks: Vec<Mark>,
    pub limit: u64,
    pub ghost within: { length marks.items ≤ limit },
}

impl Chronicle for Ledger {
    type Entry = Mark;

    type Basis = u64;

    ghost use Rattle.std.specs.Prelude.{◌≤◌, length};
    ghost use Rattle.turn_inbox.specs.Shorter.{shorter_within};

    ghost list = { λ l. l.marks.items };

    ghost basis = { λ l. l.limit };

    ghost seat_of = { λ m. m.seat };

    ghost lawful = { λ limit marks. length marks ≤ limit };

    fn length(&self) -> u64 {
        self.marks.len() as u64
    }

    ghost shorter = { λ limit xs ys within. shorter_within limit xs ys within };
}

impl Ledger {
    /// A ledger with no marks.
    pub fn new(alloc: Global, limit: u64) -> Ledger
        ensures { (result.marks.items ≡ []) × (result.limit ≡ limit) }
    {
        Ledger {
            marks: Vec::new(alloc),
            limit,
        }
    }

    /// Adds a mark as the last one.
    pub fn add(&mut self, mark: Mark) -> Result<(), AddFault>
        ensures limit { self.new.limit ≡ self.old.limit }
        ensures marks { MatchResult result (λ _. self.new.marks.items ≡ self.old.marks.items ++ mark ∷ []) (λ _. self.new.marks.items ≡ self.old.marks.items) }
        ensures fault { IfErr result (λ f. (f ≡ Full) ↔ (length self.old.marks.items ≡ self.old.limit)) }
    {
        if self.marks.len() as u64 >= self.limit {
            return Err(AddFault::Full);
        }
        if self.marks.reserve(1).is_err() {
            return Err(AddFault::OutOfMemory);
        }
        self.marks.push_reserved(mark);
        Ok(())
    }
}
