//! What a load allows in a column: wideners that are kept.
ghost use Rattle.std.specs.Prelude.{ℕ, ◌≡◌, ◌↔◌, List, Result, Ok, IfOk, IsTrue};
ghost use Rattle.std.specs.Result.{ForOk};
ghost use Rattle.segment_header.specs.Widening.{AnswersAt, Serves, WidensPlainly};
ghost use Rattle.segment_header.specs.Widening as widening;

use crate::values::are_rising;
use olap_meaning::schema::RECORD_LIMIT;
use olap_meaning::{Allowed, List, OutOfMemory, ValueId};
use std::alloc::Global;

/// A closure that says what a load allows in a column, by the values that are wanted there and the number of the column's
/// values. Threads may share it.
pub type Widening = Box<dyn Fn(&[ValueId], u32) -> Result<Allowed, OutOfMemory> + Send + Sync>;

/// What is asked what a load allows in a column. Clauses say by it what it may answer.
pub trait AllowsValues {
    ghost use Rattle.std.specs.Prelude.{ℕ, List, Result};
    ghost use Rattle.olap_meaning.specs.declared.cells.Allowed.{Allowed};
    ghost use Rattle.olap_meaning.specs.declared.OutOfMemory.{OutOfMemory};

    // it may answer so for these wanted values of a column of this many
    ghost answers: { Self → List ℕ → ℕ → Result Allowed OutOfMemory → Type 0 };
}

fn are_below(values: &[ValueId], count: u32) -> bool
    ensures { result ≡ widening.are_below count values.now }
{
    values.iter().all(|value| value.0 < count)
}

/// Whether values are ones that may be wanted in a column of this many values: there is one, they rise, and each is below
/// the number, which is at most the limit of records. It takes no memory.
pub fn are_wanted(wanted: &[ValueId], count: u32) -> bool
    ensures { result ≡ widening.are_wanted wanted.now count }
{
    !wanted.is_empty() && are_rising(wanted) && are_below(wanted, count) && count <= RECORD_LIMIT
}

/// Says what a load allows in a column by a closure, so that a load may fetch more than what a query asks for. It is kept
/// beside the facts that it may be called on values that may be wanted, and that what it allows serves them.
#[derive(Drop)]
pub struct Widener {
    widen: Widening,
    ghost callable: { (wanted : _) (count : _) → IsTrue (widening.are_wanted wanted.now count)
        → Widening.pre widen wanted count },
    ghost serves: { (wanted : _) (count : _) (answer : _)
        → IsTrue (widening.are_wanted wanted.now count)
        → Widening.post widen wanted count answer → ForOk answer (Serves wanted.now count) },
}

impl AllowsValues for Widener {
    // its closure may answer so
    ghost answers = { λ w wanted count answer. AnswersAt Widening.Fn w.widen wanted count answer };
}

impl Widener {
    /// A widener by a closure that serves whatever may be wanted. It answers what the closure may answer.
    pub fn new(widen: Widening) -> Widener
        requires callable { (wanted : _) (count : _) → IsTrue (widening.are_wanted wanted.now count)
            → Widening.pre widen wanted count }
        requires serves { (wanted : _) (count : _) (answer : _)
            → IsTrue (widening.are_wanted wanted.now count)
            → Widening.post widen wanted count answer → IfOk answer (Serves wanted.now count) }
        ensures { (wanted : List ℕ) (count : ℕ) (answer : Result Allowed OutOfMemory)
            → ⟦<Widener as AllowsValues>⟧.answers result wanted count answer
            ↔ AnswersAt Widening.Fn widen wanted count answer }
    {
        Widener { widen }
    }

    /// That each answer that it may give to wanted values serves them. This costs nothing.
    pub fn answers_serve(&self)
        ensures { (wanted : List ℕ) (count : ℕ) (allowed : Allowed)
            → IsTrue (widening.are_wanted wanted count)
            → ⟦<Widener as AllowsValues>⟧.answers self.now wanted count (Ok allowed)
            → Serves wanted count allowed }
    {
        let _ = &self.widen;
    }

    /// What a load may allow in a column, or want of memory, as the closure answers it.
    pub fn allow(&self, wanted: &[ValueId], count: u32) -> Result<Allowed, OutOfMemory>
        requires { IsTrue (widening.are_wanted wanted.now count) }
        ensures answer { ⟦<Widener as AllowsValues>⟧.answers self.now wanted.now count result }
        ensures serves { IfOk result (Serves wanted.now count) }
    {
        (self.widen)(wanted, count)
    }
}

/// What the plain widener allows: any value exactly where all the column's values are wanted, else the wanted set.
pub fn widened_plainly(
    alloc: Global,
    wanted: &[ValueId],
    count: u32,
) -> Result<Allowed, OutOfMemory>
    requires { IsTrue (widening.are_wanted wanted.now count) }
    ensures plain { IfOk result (WidensPlainly wanted.now count) }
    ensures serves { IfOk result (Serves wanted.now count) }
{
    if wanted.len() == count as usize {
        return Ok(Allowed::Any);
    }
    let values = Vec::from_slice(alloc, wanted)?;
    Ok(Allowed::Set(List::from_vec(values)))
}

/// A widener by a closure that widens plainly, as `widened_plainly` does. It answers any value exactly where all the
/// column's values are wanted, else the wanted set.
pub fn plain_widener(widen: Widening) -> Widener
    requires callable { (wanted : _) (count : _) → IsTrue (widening.are_wanted wanted.now count)
        → Widening.pre widen wanted count }
    requires plain { (wanted : _) (count : _) (answer : _)
        → IsTrue (widening.are_wanted wanted.now count)
        → Widening.post widen wanted count answer → IfOk answer (WidensPlainly wanted.now count) }
    ensures answers { (wanted : List ℕ) (count : ℕ) (answer : Result Allowed OutOfMemory)
        → ⟦<Widener as AllowsValues>⟧.answers result wanted count answer
        ↔ AnswersAt Widening.Fn widen wanted count answer }
    ensures plain { (wanted : List ℕ) (count : ℕ) (allowed : Allowed)
        → IsTrue (widening.are_wanted wanted count)
        → ⟦<Widener as AllowsValues>⟧.answers result wanted count (Ok allowed)
        → WidensPlainly wanted count allowed }
{
    Widener::new(widen)
}

fn may_be_shared<T: Send + Sync>(_value: &T) {}

/// That threads may share it. This costs nothing.
pub fn wideners_are_shared(widener: &Widener) {
    may_be_shared(widener);
}
