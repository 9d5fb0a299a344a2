//! The four lines of a tally.
ghost use Rattle.std.specs.Prelude.{◌≡◌, ◌≢◌, ◌≤◌, None, length};
ghost use Rattle.rn_window.specs.Windows.{after};
ghost use Rattle.rn_commands.specs.Workloads.{counted_line};
ghost use Rattle.rn_commands.specs.link.Workloads.{tally_lines, IsTallyOf};

use crate::ends::{end_line, fired_count};
use rn_fire::{Parts, SimState};
use rn_spell::put_numeral;
use rn_window::{Text, Window};

/// What a run did: its firings, the instances ever made, those that are live, and the first line of
/// its end.
#[derive(Drop)]
pub(crate) struct Tally {
    pub(crate) fired: u64,
    pub(crate) made: u64,
    pub(crate) live: u64,
    pub(crate) end: &'static [u8],
}

/// A word and a number, as `steps 10`.
pub(crate) fn put_counted(word: &[u8], count: u64, window: &mut Window)
    ensures { window.new ≡ after window.old (counted_line word.now count) }
{
    window.put(word);
    window.put(b" ");
    put_numeral(count, window);
    window.put(b"\n");
}

impl Text for Tally {
    ghost text = { λ t. tally_lines t.fired t.made t.live t.end.now };

    fn put(&self, window: &mut Window) {
        put_counted(b"steps", self.fired, window);
        put_counted(b"made", self.made, window);
        put_counted(b"live", self.live, window);
        window.put(self.end);
    }
}

/// What the run of a state did whose log has ended. It takes no memory.
pub(crate) fn tally_of(state: SimState) -> Tally
    requires { state.ended ≢ None }
    ensures tally { IsTallyOf state
        (tally_lines result.fired result.made result.live result.end.now) }
    ensures short { length result.end.now ≤ 20 }
{
    let fired = fired_count(&state);
    let end = end_line(&state);
    let Parts {
        system,
        entries: _,
        table,
        nets: _,
        mut live,
    } = state.into_parts();
    live.mark(&system, &table);
    let made = table.next().saturating_sub(1);
    Tally {
        fired,
        made: made as u64,
        live: live.count(),
        end,
    }
}
