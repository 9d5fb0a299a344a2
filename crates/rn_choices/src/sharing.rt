//! Threads may share flags. A type that they couldn't share would be refused here.
use crate::flag::Flag;

fn may_be_shared<T: Send + Sync>(_data: &T) {}

fn flags_may_be_shared(flag: &Flag) {
    may_be_shared(flag);
}
