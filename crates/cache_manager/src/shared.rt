//! Threads may take a manager and share what it answers: this is proved only where the bounds hold.
use crate::manager::Manager;
use crate::outcome::Look;
use history_core::Answer;

fn may_be_shared<T: Send + Sync>() {}

fn threads_share() {
    may_be_shared::<Manager>();
    may_be_shared::<Answer>();
    may_be_shared::<Look>();
}
