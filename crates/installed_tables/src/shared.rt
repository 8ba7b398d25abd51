//! Threads may share installed tables: this is proved only where the bounds hold.
use crate::installed::Installed;

fn may_be_shared<T: Send + Sync>() {}

fn threads_share() {
    may_be_shared::<Installed>();
}
