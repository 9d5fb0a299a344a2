//! Where a state may cross threads, its desk and its passes may, and the desk may be shared. Types
//! that couldn't would be refused here. Nobody calls these functions: it is enough that they
//! compile.
use crate::desk::{Desk, Pass};
use crate::kept::Kept;

fn needs_send<T: Send>(_value: &T) {}

fn needs_send_and_sync<T: Send + Sync>(_value: &T) {}

fn may_cross<S: Kept + Send>(desk: &Desk<S>, pass: &Pass<S>) {
    needs_send_and_sync(desk);
    needs_send(pass);
}
