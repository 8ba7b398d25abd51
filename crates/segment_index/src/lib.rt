//! An index over kept loads: a shelf that finds the loads of a cell by the cell's columns and values.
//!
//! A load that covers few cells with just its columns stands under the key of each of them; a wide load stands under the key of its
//! columns. So a look asks only loads that have its cell, and wide ones. Beside that, loads stand under a mask, a u64 that has the
//! bit c for each column c where all are below 64, and else all bits: under the masks that have all bits of a cell's and others besides,
//! and under that of all bits, are the loads with more columns. Loads of several cubes may have one mask, and keys may be equal by chance, so cubes, columns and values are
//! compared still. A load that flushes shut off as a whole leaves these lists. The numbers of the loads are kept rising beside them,
//! so that the oldest is at hand.
#![tactic(auto)]

mod groups;
mod hints;
mod index;
mod keys;
mod listing;
mod loads;
mod masks;
mod numbers;
mod search;
mod shared;
mod spent;

pub use index::SegmentIndex;
