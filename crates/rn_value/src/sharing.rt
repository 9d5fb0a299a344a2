//! Which data threads may share: a type that they couldn't share would be refused here.
use crate::{InstRef, Kind, Names, NoMemory, Path, Str, Vals, Value};

fn may_be_shared<T: Send + Sync>(_data: &T) {}

fn values_may_be_shared(value: &Value, values: &Vals, text: &Str, inst: &InstRef, path: &Path) {
    may_be_shared(value);
    may_be_shared(values);
    may_be_shared(text);
    may_be_shared(inst);
    may_be_shared(path);
}

fn kinds_and_names_may_be_shared(kind: &Kind, names: &Names, refusal: &NoMemory) {
    may_be_shared(kind);
    may_be_shared(names);
    may_be_shared(refusal);
}
