//! Threads may share tables and the faults of their files: this is proved only where the bounds hold.
use crate::fault::AggFault;
use crate::table::AggTable;

fn may_be_shared<T: Send + Sync>() {}

fn threads_share() {
    may_be_shared::<AggTable>();
    may_be_shared::<AggFault>();
}
