//! Keywords that begin a region.
ghost use Rattle.std.specs.Prelude.{MatchBool};
ghost use Rattle.region_reader.specs.Words.{MayBegin, MayNotBegin};

use query_meaning::Keyword;
use text_forms::{begins_either, begins_keyword};

// Whether the keyword of a region begins so, below which this many depths are left.
pub(crate) fn begins_region(front: &str, left: u8) -> bool
    ensures { MatchBool result (MayBegin left front.now) (MayNotBegin left front.now) }
{
    if begins_either(front, Keyword::Member, Keyword::Range) {
        return true;
    }
    if begins_keyword(front, Keyword::Measures) {
        return true;
    }
    if left == 0 {
        return false;
    }
    begins_either(front, Keyword::Crossjoin, Keyword::Union)
}
