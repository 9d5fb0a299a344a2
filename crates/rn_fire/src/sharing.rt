//! A state may cross threads. One that couldn't would be refused here.
use crate::state::SimState;

fn may_cross<T: Send>(_data: &T) {}

fn states_may_cross(state: &SimState) {
    may_cross(state);
}
