//! What the loads of a history cost: definitions for contracts, and their laws. A load costs the least of the rows of its
//! version and of what it costs to read one of the aggregate tables that were built before it.
#![tactic(auto)]

pub mod laws;
