//! The command `counts`: how many bindings are enabled after each firing of the least run.
ghost use Rattle.std.specs.Prelude.{◌≡◌, ◌≢◌, ◌++◌, ◌⊎◌, None, IfOk, OnOk};
ghost use Rattle.rn_model.specs.Good.{Good, IsInLimits};
ghost use Rattle.rn_incr.specs.Counts.{IsCounted};
ghost use Rattle.rn_answering.specs.NetTexts.{RefusesNet};
ghost use Rattle.rn_answering.specs.Refusing.{Concludes};
ghost use Rattle.rn_commands.specs.Counting.{count_line, count_lines, CountsTo};
ghost use Rattle.rn_commands.specs.link.Counting.{AreLinesOf, IsCountedBy};

use crate::ends::end_line;
use crate::runs::closed_by;
use rn_answering::{Answer, Stopped, system_of};
use rn_fire::SimState;
use rn_incr::{Counted, run_counts};
use rn_items::{Items, NoMemory};
use rn_model::{Options, System};
use std::alloc::Global;
use std::sync::Arc;

// Appends the line of a number of firings and of a number of bindings, as `3 2`.
fn put_count(alloc: Global, fired: u64, count: u128, text: &mut Vec<u8>) -> Result<(), NoMemory>
    ensures { OnOk result (text.new.items ≡ text.old.items ++ count_line fired count) }
{
    let steps = fired.to_string(alloc)?;
    let number = count.to_string(alloc)?;
    text.extend_from_slice(steps.as_bytes())?;
    text.push(b' ')?;
    text.extend_from_slice(number.as_bytes())?;
    text.push(b'\n')?;
    Ok(())
}

// The lines of all numbers, the first of which is that of no firing.
fn lines_of(alloc: Global, counts: &[u128]) -> Result<Vec<u8>, NoMemory>
    ensures { IfOk result (λ text. text.items ≡ count_lines 0 counts.now) }
{
    let mut text = Vec::new(alloc);
    for (i, count) in counts.iter().enumerate() {
        put_count(alloc, i as u64, *count, &mut text)?;
    }
    Ok(text)
}

// The lines of the numbers, and that of the end.
fn counts_text(alloc: Global, state: &SimState, counts: &[u128]) -> Result<Vec<u8>, NoMemory>
    requires { state.now.ended ≢ None }
    ensures { IfOk result (λ text. AreLinesOf state.now counts.now text.items) }
{
    let mut text = lines_of(alloc, counts)?;
    text.extend_from_slice(end_line(state))?;
    Ok(text)
}

// What a counted run whose log has ended comes to.
fn counted(alloc: Global, run: &Counted) -> Result<Answer, NoMemory>
    requires { run.now.state.ended ≢ None }
    ensures { IfOk result (λ a. IsCountedBy run.now.state run.now.counts a) }
{
    let text = counts_text(alloc, &run.state, run.counts.as_slice())?;
    let (status, line) = closed_by(alloc, &run.state)?;
    Ok(Answer {
        status,
        text: Items::from_vec(text),
        line,
    })
}

// The least run of a system to its end, with the numbers.
fn counts_of(alloc: Global, system: System, options: Options) -> Result<Counted, NoMemory>
    requires good { Good system }
    requires limits { IsInLimits options }
    ensures { IfOk result (λ c. IsCounted system options c.state c.counts) }
{
    let system = Arc::new(alloc, system)?;
    run_counts(alloc, system, options)
}

/// What `counts` comes to on this net text, with these options.
pub fn counts(alloc: Global, options: Options, bytes: &[u8]) -> Result<Answer, Stopped>
    requires { IsInLimits options }
    ensures { Concludes (λ a. RefusesNet bytes.now a ⊎ CountsTo options bytes.now a) result }
{
    let system = system_of(alloc, bytes)?;
    let run = counts_of(alloc, system, options)?;
    Ok(counted(alloc, &run)?)
}
