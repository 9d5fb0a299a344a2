//! Systems of net texts, and options.
ghost use Rattle.std.specs.Prelude.{◌≡◌, ◌≤◌, IfOk};
ghost use Rattle.rn_model.specs.Good.{Good, IsInLimits};
ghost use Rattle.rn_model.specs.Limits.{most_steps};

use rn_check::check_system;
use rn_model::{Options, System};
use rn_net::read_system;
use std::alloc::Global;
use std::sync::Arc;
use std::test::Fail;

/// The system of a net text.
pub(crate) fn system_of(alloc: Global, text: &[u8]) -> Result<Arc<System>, Fail>
    ensures { IfOk result (λ system. Good system.value) }
{
    let plain = read_system(alloc, text)?;
    let system = check_system(alloc, plain)?;
    Ok(Arc::new(alloc, system)?)
}

/// One worker that drops nothing, and at most so many firings.
pub(crate) fn options_of(steps: u32) -> Options
    requires { steps ≤ most_steps }
    ensures limits { IsInLimits result }
    ensures steps { result.steps ≡ steps }
{
    Options {
        workers: 1,
        steps,
        depth: 4,
        sweep_every: 0,
    }
}
