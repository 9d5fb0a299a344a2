//! What is the same for all workers of a run and for all their rounds. So it is handed on as one.
use crate::considering::Seed;
use crate::standby::Standby;
use rn_channel::Uplinks;
use rn_desk::Desk;
use rn_fire::SimState;
use rn_model::{Options, System};

/// What workers fire, and how: a system with its uplinks, and the options of the run.
#[derive(Clone, Copy)]
pub struct Task<'a> {
    pub system: &'a System,
    pub uplinks: &'a Uplinks,
    pub options: &'a Options,
}

/// What the workers of a run share: the desk with its state, their task, the seed of the run, and
/// who is needed.
#[derive(Clone, Copy)]
pub(crate) struct Team<'a> {
    pub desk: &'a Desk<SimState>,
    pub task: Task<'a>,
    pub seed: Seed,
    pub standby: &'a Standby,
}
