//! What follows of an opening where the files are told. Each function does nothing: its contract is the law.
ghost use Rattle.cache_opening.specs.Laws.{OpeningsAreOfTheirFiles};

/// Where a depot tells its files, what its answers lead to is the opening of these files.
pub fn openings_are_of_their_files()
    ensures { OpeningsAreOfTheirFiles }
{}
