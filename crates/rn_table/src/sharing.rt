//! Threads may share tables. A type that they couldn't share would be refused here.
use crate::table::Table;

fn may_be_shared<T: Send + Sync>(_data: &T) {}

fn tables_may_be_shared(table: &Table) {
    may_be_shared(table);
}
