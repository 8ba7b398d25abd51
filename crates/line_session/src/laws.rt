//! What follows of sessions from their definition alone. Each function does nothing: its contract is the law.
ghost use Rattle.line_session.specs.Answered.{AggsAreAnswered, FlushesAreAnswered, LooksAreAnswered, QueriesAreAnswered};
ghost use Rattle.line_session.specs.Tools.{tools_of};

use crate::tools::Tools;
use segment_header::{AllowsValues, Widener};
use shown_values::{Formatter, GivesTexts};

/// With these tools: where a line of text is a query that means axes, and no want of memory is replied, the reply is
/// the grid of an answer to their cells.
pub fn queries_are_answered(tools: &Tools)
    ensures { QueriesAreAnswered (tools_of (⟦<Formatter as GivesTexts>⟧.answers tools.now.formatter)
        (⟦<Widener as AllowsValues>⟧.answers tools.now.widener)) }
{
    let _ = &tools.formatter;
    let _ = &tools.widener;
}

/// With these tools: a line of text that is a flush is answered by what the flush means. Where it means a region, this is
/// flushed, and the reply is the position of the entry; else nothing is added, and the reply is the first refusal; or there
/// was no memory, and no entry was made.
pub fn flushes_are_answered(tools: &Tools)
    ensures { FlushesAreAnswered (tools_of (⟦<Formatter as GivesTexts>⟧.answers tools.now.formatter)
        (⟦<Widener as AllowsValues>⟧.answers tools.now.widener)) }
{
    let _ = &tools.formatter;
    let _ = &tools.widener;
}

/// With these tools: a line of text that asks for what is kept is an entry, and the reply is the text of what was kept
/// before it; or there was no memory.
pub fn looks_are_answered(tools: &Tools)
    ensures { LooksAreAnswered (tools_of (⟦<Formatter as GivesTexts>⟧.answers tools.now.formatter)
        (⟦<Widener as AllowsValues>⟧.answers tools.now.widener)) }
{
    let _ = &tools.formatter;
    let _ = &tools.widener;
}

/// With these tools: a line of text that is an AGG is answered by the table that its name means. Where it means one, this is
/// built, and the reply tells the position of the entry, the version and the groups; else nothing is added, and the reply
/// tells the name; or there was no memory, and no entry was made.
pub fn aggs_are_answered(tools: &Tools)
    ensures { AggsAreAnswered (tools_of (⟦<Formatter as GivesTexts>⟧.answers tools.now.formatter)
        (⟦<Widener as AllowsValues>⟧.answers tools.now.widener)) }
{
    let _ = &tools.formatter;
    let _ = &tools.widener;
}
