//! Laws of the definitions alone: each is the contract of a function with an empty body.

ghost use Rattle.olap_meaning.specs.Equivalents.{FloorIsGreatest, LiveIsByPosition, AwaitedIsByPosition, AwaitedLoadIsLeast, ExactSourceIsGreatest, OldestIsLeast};
ghost use Rattle.olap_meaning.specs.Growth.{LegalGrows, VersionGrows, FloorGrows, ExactSourceGrows, AwaitedLoadGrows, RegionsGrow, ShuttingGrows, LoadsStartWhole};
ghost use Rattle.olap_meaning.specs.Limits.{LimitsAreStated};
ghost use Rattle.olap_meaning.specs.RolledCases.{RolledCasesAreDecided};
ghost use Rattle.olap_meaning.specs.Sources.{DistinctCountsAreExact, FlushesLeaveNoSource, RolledSourcesAreDecided, SomeRollExactly, SourcesAreDecided, StartsGiveNoSource};
ghost use Rattle.olap_meaning.specs.Laws.{PrefixesAreLegal, VersionsRise, AnswersAreFresh, AnswersAreServed, FlushesShutOff, OthersServeOn, RegionsReachUp, RegionsConcern, RegionsShutOff, TouchingAreCounted, DeliveredAreKept, LoadsAreNotDoubled, LoadsEndOnce, CallsRise, SomeAnswerIsLegal, EvictionsChangeNoWorth, SourcesStay, EvictedServeNone, LoadsAreEvictedOnce};

/// The limits of the code are the numbers of the definitions.
pub fn limits_are_stated()
    ensures { LimitsAreStated }
{}

/// A prefix of a legal history is legal.
pub fn prefixes_are_legal()
    ensures { PrefixesAreLegal }
{}

/// The versions of a cube only rise.
pub fn versions_rise()
    ensures { VersionsRise }
{}

/// No answer is older than the version at the latest flush that covers the cell.
pub fn answers_are_fresh()
    ensures { AnswersAreFresh }
{}

/// Each cell of an answer is worth the aggregate over one recorded version, from loads that are live for it.
pub fn answers_are_served()
    ensures { AnswersAreServed }
{}

/// A flush shuts off what it covers.
pub fn flushes_shut_off()
    ensures { FlushesShutOff }
{}

/// A flush leaves what it does not cover.
pub fn others_serve_on()
    ensures { OthersServeOn }
{}

/// A flush reaches the cells above it.
pub fn regions_reach_up()
    ensures { RegionsReachUp }
{}

/// A region concerns a header just where it covers the cell of its cube and measure that names no column.
pub fn regions_concern()
    ensures { RegionsConcern }
{}

/// Which cells of a load were flushed is told by the regions that shut off part of it.
pub fn regions_shut_off()
    ensures { RegionsShutOff }
{}

/// How many flushes touch a load is counted over these regions alone.
pub fn touching_are_counted()
    ensures { TouchingAreCounted }
{}

/// What was delivered is kept, unless it was evicted.
pub fn delivered_are_kept()
    ensures { DeliveredAreKept }
{}

/// No load is started for the reason of one that still flies, unless a flush between them covers it.
pub fn loads_are_not_doubled()
    ensures { LoadsAreNotDoubled }
{}

/// A load is delivered or dropped once.
pub fn loads_end_once()
    ensures { LoadsEndOnce }
{}

/// The call numbers of a seat rise.
pub fn calls_rise()
    ensures { CallsRise }
{}

/// The floor is the greatest version at a flush that covers the cell.
pub fn floor_is_greatest()
    ensures { FloorIsGreatest }
{}

/// What is live, position by position.
pub fn live_is_by_position()
    ensures { LiveIsByPosition }
{}

/// What is awaited, position by position.
pub fn awaited_is_by_position()
    ensures { AwaitedIsByPosition }
{}

/// The exact source is the greatest live load with just the cell's columns.
pub fn exact_source_is_greatest()
    ensures { ExactSourceIsGreatest }
{}

/// The load that a cell awaits is the least that is awaited for it.
pub fn awaited_load_is_least()
    ensures { AwaitedLoadIsLeast }
{}

/// The oldest kept load is the least.
pub fn oldest_is_least()
    ensures { OldestIsLeast }
{}

/// An eviction changes what no cell is worth, and no floor.
pub fn evictions_change_no_worth()
    ensures { EvictionsChangeNoWorth }
{}

/// What a cell is taken from goes on to be a source of it, where no load of it is evicted.
pub fn sources_stay()
    ensures { SourcesStay }
{}

/// An evicted load serves no cell.
pub fn evicted_serve_none()
    ensures { EvictedServeNone }
{}

/// A load is evicted once.
pub fn loads_are_evicted_once()
    ensures { LoadsAreEvictedOnce }
{}

/// One more entry, and the version.
pub fn version_grows()
    ensures { VersionGrows }
{}

/// One more entry, and the floor.
pub fn floor_grows()
    ensures { FloorGrows }
{}

/// One more entry, and the exact source of a cell.
pub fn exact_source_grows()
    ensures { ExactSourceGrows }
{}

/// One more entry, and the load that is awaited for a cell.
pub fn awaited_load_grows()
    ensures { AwaitedLoadGrows }
{}

/// One more entry, and the regions that were flushed after a position.
pub fn regions_grow()
    ensures { RegionsGrow }
{}

/// One more entry, and the regions that shut off part of a load.
pub fn shutting_grows()
    ensures { ShuttingGrows }
{}

/// Nothing shuts off part of a load that was only just started.
pub fn loads_start_whole()
    ensures { LoadsStartWhole }
{}

/// A legal history goes on by a legal step.
pub fn legal_grows()
    ensures { LegalGrows }
{}

/// Among some offers there are some that are rolled up to a cell exactly where `can_roll` says so.
pub fn some_roll_exactly()
    ensures { SomeRollExactly }
{}

/// Some offers, decided by hand.
pub fn rolled_cases_are_decided()
    ensures { RolledCasesAreDecided }
{}

/// A cell has a rolled source exactly where `has_rolled_source` says so.
pub fn rolled_sources_are_decided()
    ensures { RolledSourcesAreDecided }
{}

/// A cell has a source, exact or rolled, exactly where `has_source` says so.
pub fn sources_are_decided()
    ensures { SourcesAreDecided }
{}

/// A load that is started gives no cell a source: it has to be delivered first.
pub fn starts_give_no_source()
    ensures { StartsGiveNoSource }
{}

/// A distinct count is never rolled up: an answered one was taken from its exact source alone.
pub fn distinct_counts_are_exact()
    ensures { DistinctCountsAreExact }
{}

/// A flush that covers a cell leaves it without a source, exact or rolled.
pub fn flushes_leave_no_source()
    ensures { FlushesLeaveNoSource }
{}

/// Some legal history ends with an answer.
pub fn some_answer_is_legal()
    ensures { SomeAnswerIsLegal }
{}
