//! Which data threads may share: a type that they couldn't share would be refused here.
use crate::binding::Binding;
use crate::log::{Entry, Options, Told};
use crate::system::System;

fn may_be_shared<T: Send + Sync>(_data: &T) {}

fn system_may_be_shared(system: &System) {
    may_be_shared(system);
}

fn logs_may_be_shared(binding: &Binding, entry: &Entry, told: &Told, options: &Options) {
    may_be_shared(binding);
    may_be_shared(entry);
    may_be_shared(told);
    may_be_shared(options);
}
