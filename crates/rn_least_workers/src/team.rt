//! What is the same for all workers of a least run and for all their rounds. So it is handed on as
//! one.
use rn_desk::Desk;
use rn_least_state::LeastState;
use rn_worker::Task;

/// What the workers of a least run share: the desk with its state, and their task.
#[derive(Clone, Copy)]
pub(crate) struct LeastTeam<'a> {
    pub desk: &'a Desk<LeastState>,
    pub task: Task<'a>,
}
