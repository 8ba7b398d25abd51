//! Threads may take loads and hand over bodies: this is proved only where the bounds hold.
use crate::job::{LoadedSegment, SegmentLoad};

fn may_be_shared<T: Send + Sync>() {}

fn threads_share() {
    may_be_shared::<SegmentLoad>();
    may_be_shared::<LoadedSegment>();
}
