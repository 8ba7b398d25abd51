//! The aggregate tables of a cache: of each declaration the one that was built last, in the order of the declarations.
#![tactic(auto)]

mod installed;
mod shared;

pub use installed::Installed;
