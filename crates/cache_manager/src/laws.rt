//! Laws of looks and of loads in flight: each is the contract of a function with an empty body.
ghost use Rattle.cache_manager.specs.Laws.{DeliveredLooksAreReady, JobsStay, OwnBodies, OwnLoadsFly};

/// After each load that a look started, or that it waits for, was delivered, and nothing was flushed or evicted, each of its
/// cells has a source.
pub fn delivered_looks_are_ready()
    ensures { DeliveredLooksAreReady }
{}

/// A load flies where the entries of its own seat do not end it.
pub fn own_loads_fly()
    ensures { OwnLoadsFly }
{}

/// A job stays one of its load while its own seat does not end the load: whoever holds a job may deliver or abandon it,
/// whatever others did meanwhile.
pub fn jobs_stay()
    ensures { JobsStay }
{}

/// What a job has come to may be delivered.
pub fn own_bodies()
    ensures { OwnBodies }
{}
