//! What follows of runs from their definition alone. Each function does nothing: its contract is the law.
ghost use Rattle.olap_server.specs.Complete.{RunsAreComplete};
ghost use Rattle.line_session.specs.Tools.{tools_of};

use line_session::Tools;
use segment_header::{AllowsValues, Widener};
use shown_values::{Formatter, GivesTexts};

/// With these tools, of any depot and any link: where the words ask for a session over a file's cache, the depot answers as
/// some files say, of which that one opens without a fault, neither depot nor link has failed, and no want of memory is told,
/// by the status or to a line, a cache was opened from these files; each line up to the end of the input, to one that ends the
/// session, to too long a line or to the last byte that a session takes was handled; each query that means axes was answered
/// by its whole grid; and the status is 0, or 9 where more bytes came than a session takes.
pub fn runs_are_complete(tools: &Tools)
    ensures { RunsAreComplete (tools_of (⟦<Formatter as GivesTexts>⟧.answers tools.now.formatter)
        (⟦<Widener as AllowsValues>⟧.answers tools.now.widener)) }
{
    let _ = &tools.formatter;
    let _ = &tools.widener;
}
