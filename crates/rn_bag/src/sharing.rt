//! Threads may share bags. A type that they couldn't share would be refused here.
use crate::bag::Bag;

fn may_be_shared<T: Send + Sync>(_data: &T) {}

fn bags_may_be_shared(bag: &Bag) {
    may_be_shared(bag);
}
