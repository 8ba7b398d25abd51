//! Laws of regions: each is the contract of a function with an empty body.
ghost use Rattle.region_algebra.specs.Laws.{BoxLimitIsStated, CrossjoinsCover, RangesCover, UnionsCover};

/// A region has at most this many boxes.
pub fn box_limit_is_stated()
    ensures { BoxLimitIsStated }
{}

/// A range covers a cell exactly where the region of one of its members does.
pub fn ranges_cover()
    ensures { RangesCover }
{}

/// A crossjoin covers a cell exactly where all its parts do.
pub fn crossjoins_cover()
    ensures { CrossjoinsCover }
{}

/// A union covers a cell exactly where one of its parts does.
pub fn unions_cover()
    ensures { UnionsCover }
{}
