//! The definitions of a cache's history as plain, slow code, for tables that are worked by hand.
//!
//! Each body walks whole lists each time, and its contract is the definition that it computes.
#![tactic(auto)]

ghost use Rattle.std.specs.Prelude.{◌≡◌};

pub mod budget;
pub mod catalogs;
mod entries;
pub mod history;
mod offers;
pub mod sources;
pub mod steps;

pub use entries::PlainEntry;
