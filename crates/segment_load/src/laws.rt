//! Laws of loads: each is the contract of a function with an empty body.
ghost use Rattle.segment_load.specs.Laws.{HeldRowsAreWorth, HeldRowsAreWorthInVersions, LoadsAreWorth, LoadsAreWorthInVersions, LoadsHoldRows};

/// What the body that rows alone fill says of a cell that its header just covers is the value of the cell over these rows.
pub fn loads_are_worth()
    ensures { LoadsAreWorth }
{}

/// Over the rows of a version of its cube, it is the value of the cell in that version.
pub fn loads_are_worth_in_versions()
    ensures { LoadsAreWorthInVersions }
{}

/// The body that rows alone fill holds them.
pub fn loads_hold_rows()
    ensures { LoadsHoldRows }
{}

/// What a body that holds rows, in whatever order, says of a cell that its header just covers is the value of the cell
/// over these rows.
pub fn held_rows_are_worth()
    ensures { HeldRowsAreWorth }
{}

/// Over the rows of a version of its cube, it is the value of the cell in that version.
pub fn held_rows_are_worth_in_versions()
    ensures { HeldRowsAreWorthInVersions }
{}
