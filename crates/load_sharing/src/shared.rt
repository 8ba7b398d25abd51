//! Threads may take what stands here from one another and share it: this is proved only where the bounds hold.
use crate::flights::Flights;

fn may_be_shared<T: Send + Sync>() {}

fn threads_share() {
    may_be_shared::<Flights>();
}
