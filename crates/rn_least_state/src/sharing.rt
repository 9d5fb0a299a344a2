//! A state may cross threads. One that couldn't would be refused here.
use crate::state::LeastState;

fn may_cross<T: Send>(_data: &T) {}

fn states_may_cross(state: &LeastState) {
    may_cross(state);
}
