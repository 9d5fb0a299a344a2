//! The commands that need the states of a net: `enabled`, `run`, `replay`, `moves`, `session`,
//! `counts` and `gen`; `pt`, which translates weighted nets; and `migrate`.
#![tactic(auto)]

mod bindings;
mod closing;
mod counting;
mod ends;
mod jobs;
mod laws;
mod least_runs;
mod migrating;
mod moving;
mod ready_jobs;
mod readying;
mod replays;
mod running;
mod runs;
mod stepping;
mod tallying;
mod telling;
mod translating;
mod workload;

pub use bindings::enabled;
pub use counting::counts;
pub use jobs::{Job, Pick, Telling, net_job, run_job, workload_job};
pub use laws::{answer_laws, gen_laws, moves_laws, parts_laws};
pub use least_runs::{least_run_laws, run_least};
pub use migrating::migrate;
pub use moving::moves;
pub use ready_jobs::{ReadyJob, ready_job};
pub use replays::replay;
pub use runs::{run, run_seeded};
pub use stepping::session;
pub use translating::pt;
pub use workload::{run_workload, run_workload_seeded};
