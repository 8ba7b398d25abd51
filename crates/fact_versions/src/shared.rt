//! Threads may share batches, facts and snapshots: this is proved only where the bounds hold.
use crate::batch::Batch;
use crate::facts::Facts;
use crate::piece::Piece;
use crate::snapshot::Snapshot;

fn is_shared<T: Send + Sync>() {}

fn threads_share() {
    is_shared::<Batch>();
    is_shared::<Piece>();
    is_shared::<Facts>();
    is_shared::<Snapshot>();
}
