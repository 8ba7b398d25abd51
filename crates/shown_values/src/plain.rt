//! The texts of values.
ghost use Rattle.std.specs.Prelude.{ℕ, ◌≡◌, List, IfOk};
ghost use Rattle.olap_meaning.specs.Texts.{CanBeShown, plain_text};
ghost use Rattle.query_meaning.specs.Shown.{Shows};
ghost use Rattle.shown_values.specs.Given.{Given};

use crate::formatter::{Formatter, GivesTexts, Showing};
use olap_meaning::{CellValue, OutOfMemory, Text, plain_text};
use std::alloc::Global;

/// The plain text of a value.
#[tactic(auto, using(crate::proofs::PlainFacts::plain_is_bare, crate::proofs::PlainFacts::plain_has_no_break))]
pub fn shown_plainly(alloc: Global, value: &CellValue) -> Result<Text, OutOfMemory>
    requires { CanBeShown value.now }
    ensures plain { IfOk result (λ text. text ≡ plain_text value.now) }
    ensures shows { IfOk result (Shows value.now) }
{
    plain_text(alloc, value)
}

/// A formatter by a closure that shows each value by its plain text, as `shown_plainly` does. Each text that it gives for a
/// value is the value's plain text.
pub fn plain_formatter(show: Showing) -> Formatter
    requires callable { (value : _) → CanBeShown value.now → Showing.pre show value }
    requires plain { (value : _) (text : _) → CanBeShown value.now
        → Showing.post show value text → IfOk text (λ text. text ≡ plain_text value.now) }
    requires shows { (value : _) (text : _) → CanBeShown value.now
        → Showing.post show value text → IfOk text (Shows value.now) }
    ensures { (value : CellValue) (text : List ℕ) → CanBeShown value
        → Given (⟦<Formatter as GivesTexts>⟧.answers result) value text → text ≡ plain_text value }
{
    Formatter::new(show)
}
