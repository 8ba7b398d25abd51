//! Threads may share a catalog: this is proved only where the bounds hold.
use crate::catalog::Catalog;

fn is_shared<T: Send + Sync>() {}

fn threads_share() {
    is_shared::<Catalog>();
}
