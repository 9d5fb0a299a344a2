//! Threads may share uplinks. A type that they couldn't share would be refused here.
use crate::uplinks::Uplinks;

fn may_be_shared<T: Send + Sync>(_data: &T) {}

fn uplinks_may_be_shared(uplinks: &Uplinks) {
    may_be_shared(uplinks);
}
