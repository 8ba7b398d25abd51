//! Formatters that are kept.
ghost use Rattle.std.specs.Prelude.{ℕ, ◌↔◌, List, Result, IfOk};
ghost use Rattle.std.specs.Fn.{FnReturnsAt};
ghost use Rattle.std.specs.Result.{ForOk};
ghost use Rattle.olap_meaning.specs.Texts.{CanBeShown};
ghost use Rattle.query_meaning.specs.Shown.{Shows};
ghost use Rattle.shown_values.specs.Given.{Given};

use olap_meaning::{CellValue, OutOfMemory, Text};

/// A closure that gives a text for a value. Threads may share it.
pub type Showing = Box<dyn Fn(&CellValue) -> Result<Text, OutOfMemory> + Send + Sync>;

/// What is asked for the texts of values. Clauses say by it what it may answer.
pub trait GivesTexts {
    ghost use Rattle.std.specs.Prelude.{ℕ, List, Result};
    ghost use Rattle.olap_meaning.specs.declared.CellValue.{CellValue};
    ghost use Rattle.olap_meaning.specs.declared.OutOfMemory.{OutOfMemory};

    // it may answer so for this value
    ghost answers: { Self → CellValue → Result (List ℕ) OutOfMemory → Type 0 };
}

/// Shows the values of cells by a closure (Schema Guide, "Cell Formatter"). It is kept beside the facts that it may be
/// called on each value that can be shown, and that its texts show them.
#[derive(Drop)]
pub struct Formatter {
    show: Showing,
    ghost callable: { (value : _) → CanBeShown value.now → Showing.pre show value },
    ghost shows: { (value : _) (text : _) → CanBeShown value.now → Showing.post show value text
        → ForOk text (Shows value.now) },
}

impl GivesTexts for Formatter {
    // its closure may answer so
    ghost answers = { λ f value answer. FnReturnsAt Showing.Fn f.show value answer };
}

impl Formatter {
    /// A formatter by a closure that shows each value that can be shown. It answers what the closure may answer.
    pub fn new(show: Showing) -> Formatter
        requires callable { (value : _) → CanBeShown value.now → Showing.pre show value }
        requires shows { (value : _) (text : _) → CanBeShown value.now
            → Showing.post show value text → IfOk text (Shows value.now) }
        ensures { (value : CellValue) (answer : Result (List ℕ) OutOfMemory)
            → ⟦<Formatter as GivesTexts>⟧.answers result value answer
            ↔ FnReturnsAt Showing.Fn show value answer }
    {
        Formatter { show }
    }

    /// That each text that it may give for a value shows the value. This costs nothing.
    pub fn texts_show(&self)
        ensures { (value : CellValue) (text : List ℕ) → CanBeShown value
            → Given (⟦<Formatter as GivesTexts>⟧.answers self.now) value text → Shows value text }
    {
        let _ = &self.show;
    }

    /// The text of a value that can be shown, or want of memory, as the closure answers it.
    pub fn show(&self, value: &CellValue) -> Result<Text, OutOfMemory>
        requires { CanBeShown value.now }
        ensures answer { ⟦<Formatter as GivesTexts>⟧.answers self.now value.now result }
        ensures shows { IfOk result (Shows value.now) }
    {
        (self.show)(value)
    }
}

fn may_be_shared<T: Send + Sync>(_value: &T) {}

/// That threads may share it. This costs nothing.
pub fn formatters_are_shared(formatter: &Formatter) {
    may_be_shared(formatter);
}
