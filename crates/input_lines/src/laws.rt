//! What follows of lines from their definition alone. Each function does nothing: its contract is the law.
ghost use Rattle.query_meaning.specs.Lines.{BeginningsAreOne};

/// No bytes begin with two things.
pub fn beginnings_are_one()
    ensures { BeginningsAreOne }
{}
