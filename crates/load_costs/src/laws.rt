//! Laws of what loads cost. A call of one costs nothing.
ghost use Rattle.load_costs.specs.Laws.{CostsAddUp, CostsStay, LastBuildsCount, LoadsCountAtTheirStart, LoadsReadRows, LoadsReadTheCheapest, TablesAreThoseBuilt};

/// What a load costs and reads that was started stays as it is, whatever comes after: a table that is built later does not
/// change it.
pub fn costs_stay()
    ensures { CostsStay }
{}

/// What a load reads and costs, by its position, goes by the entries before its Start.
pub fn loads_count_at_their_start()
    ensures { LoadsCountAtTheirStart }
{}

/// What entries cost a seat is a sum over them, each after those before it.
pub fn costs_add_up()
    ensures { CostsAddUp }
{}

/// Where no table is built a load costs the rows of its version.
pub fn loads_read_rows()
    ensures { LoadsReadRows }
{}

/// A table is built last by an entry after which none builds it.
pub fn last_builds_count()
    ensures { LastBuildsCount }
{}

/// The tables of a history are just those that it has built, each over the version over which it was built last, in the order
/// of the schema.
pub fn tables_are_those_built()
    ensures { TablesAreThoseBuilt }
{}

/// A load reads the cheapest of the facts of its version and the tables that were built before its Start: of several that
/// cost as much the first, and the facts last.
pub fn loads_read_the_cheapest()
    ensures { LoadsReadTheCheapest }
{}
