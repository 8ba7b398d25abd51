//! Threads may share the faults of a batch: this is proved only where the bounds hold.
use crate::fault::BatchFault;

fn is_shared<T: Send + Sync>() {}

fn threads_share() {
    is_shared::<BatchFault>();
}
