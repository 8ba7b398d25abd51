//! Threads may share the faults of a table: this is proved only where the bounds hold.
use crate::fault::TableFault;

fn is_shared<T: Send + Sync>() {}

fn threads_share() {
    is_shared::<TableFault>();
}
