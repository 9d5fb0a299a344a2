//! Migration: net texts and records of notation 1 in notation 2.
#![tactic(auto)]

mod laws;
mod migrating;
mod record;

pub use laws::migration_laws;
pub use migrating::migrate_text;
pub use record::migrate_record;
