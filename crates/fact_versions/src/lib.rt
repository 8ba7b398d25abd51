//! The facts of cubes. A batch is fact rows of one cube, kept as columns of plain numbers, each of whose rows costs a step
//! to read. Each further batch makes a version of its cube, and a snapshot is the batches of one: batches are shared and
//! never copied.
#![tactic(auto)]

mod batch;
mod batches;
mod columns;
mod facts;
mod faults;
mod piece;
mod shared;
mod snapshot;
mod steps;

pub use batch::Batch;
pub use facts::Facts;
pub use faults::AppendFault;
pub use piece::Piece;
pub use snapshot::Snapshot;
pub use steps::Steps;
