//! What plans are good for: each the contract of a function that does nothing.
ghost use Rattle.rollup_plan.specs.Laws.{CandidatesAreKept, PlansRoll};

use cache_flush::Shelf;

/// Rows after a plan, as a roll asks.
pub fn plans_roll()
    ensures { PlansRoll }
{}

/// The candidates that a shelf tells of a cell are such as a plan is sought among. This costs nothing.
pub fn candidates_are_kept<S: Shelf>(shelf: &S)
    ensures { CandidatesAreKept (S.loads shelf.now) }
{
    shelf.numbers_differ();
}
