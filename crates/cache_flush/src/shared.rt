//! Threads may take what stands here from one another and share it: this is proved only where the bounds hold.
use crate::kept::Kept;
use crate::shut::Shut;

fn may_be_shared<T: Send + Sync>() {}

fn threads_share() {
    may_be_shared::<Shut>();
    may_be_shared::<Kept>();
}
