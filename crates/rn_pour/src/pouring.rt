//! A text into a sink, piece by piece.
ghost use Rattle.std.specs.Prelude.{◌≡◌, ◌<◌, ◌+◌, ◌-◌, ◌++◌, [], length, take, drop, min};
ghost use Rattle.std.specs.Prelude.{None, OnOk, OnErr, IfSome};
ghost use Rattle.rn_window.specs.Windows.{top};
ghost use Rattle.rn_pour.specs.Flows.{Standing, Flows, Breaks};

use rn_outside::{Sink, WriteFault, write_all};
use rn_window::{Text, Window};

/// How many bytes a text has, at most `usize::MAX`, which stands for that and more.
pub fn measure<T: Text>(text: &T, window: &mut Window) -> usize
    ensures length { result ≡ min top (length (T.text text.now)) }
    ensures room { window.new.room ≡ window.old.room }
    ensures kept { window.new.kept ≡ [] }
{
    window.begin(0, usize::MAX);
    text.put(window);
    let came = window.came();
    window.begin(0, 0);
    came
}

/// Writes a text behind the bytes that a window keeps. What it has no room for flows into the sink,
/// with all that came before. It takes no memory.
pub fn pour<T: Text, O: Sink>(text: &T, window: &mut Window, sink: &mut O) -> Result<(), WriteFault>
    requires room { 0 < window.old.room }
    requires short { length (T.text text.now) < top }
    ensures ok { OnOk result (Flows
        (record {
          held = O.held sink.old;
          faults = O.faults sink.old;
          writes = O.writes sink.old;
          empty_writes = O.empty_writes sink.old;
        }) window.old.kept (T.text text.now)
        (record {
          held = O.held sink.new;
          faults = O.faults sink.new;
          writes = O.writes sink.new;
          empty_writes = O.empty_writes sink.new;
        }) window.new.kept) }
    ensures err { OnErr result (Breaks
        (record {
          held = O.held sink.old;
          faults = O.faults sink.old;
          writes = O.writes sink.old;
          empty_writes = O.empty_writes sink.old;
        }) window.old.kept (T.text text.now)
        (record {
          held = O.held sink.new;
          faults = O.faults sink.new;
          writes = O.writes sink.new;
          empty_writes = O.empty_writes sink.new;
        })) }
    ensures room { window.new.room ≡ window.old.room }
{
    let mut skip = 0;
    while let Some(next) = put_from(text, window, skip) {
        write_all(sink, window.kept())?;
        window.begin(0, 0);
        skip = next;
    }
    Ok(())
}

// Writes a text behind the bytes that a window keeps, without its first ones. Where the window has
// no room for all, it says how many bytes of the text have come with those that it has room for.
#[tactic(auto, using(crate::proofs::Pieces::pieces))]
fn put_from<T: Text>(text: &T, window: &mut Window, skip: usize) -> Option<usize>
    requires short { length (T.text text.now) < top }
    ensures all { result ≡ None →
        window.new.kept ≡ window.old.kept ++ drop skip (T.text text.now) }
    ensures piece { IfSome result (λ _. window.new.kept ≡ window.old.kept
        ++ take (window.old.room - length window.old.kept) (drop skip (T.text text.now))) }
    ensures next { IfSome result (λ next.
        next ≡ skip + (window.old.room - length window.old.kept)) }
    ensures within { IfSome result (λ next. next < length (T.text text.now)) }
    ensures room { window.new.room ≡ window.old.room }
{
    let kept = window.kept().len();
    let room = window.room().saturating_sub(kept);
    window.begin(kept, skip);
    text.put(window);
    let left = window.came().saturating_sub(skip);
    if left <= room {
        return None;
    }
    Some(skip + room)
}

/// Writes the bytes that a window keeps into the sink, where there are any.
pub fn flush<O: Sink>(window: &mut Window, sink: &mut O) -> Result<(), WriteFault>
    ensures ok { OnOk result (Flows
        (record {
          held = O.held sink.old;
          faults = O.faults sink.old;
          writes = O.writes sink.old;
          empty_writes = O.empty_writes sink.old;
        }) window.old.kept []
        (record {
          held = O.held sink.new;
          faults = O.faults sink.new;
          writes = O.writes sink.new;
          empty_writes = O.empty_writes sink.new;
        }) []) }
    ensures err { OnErr result (Breaks
        (record {
          held = O.held sink.old;
          faults = O.faults sink.old;
          writes = O.writes sink.old;
          empty_writes = O.empty_writes sink.old;
        }) window.old.kept []
        (record {
          held = O.held sink.new;
          faults = O.faults sink.new;
          writes = O.writes sink.new;
          empty_writes = O.empty_writes sink.new;
        })) }
    ensures kept { window.new.kept ≡ [] }
    ensures room { window.new.room ≡ window.old.room }
{
    match write_all(sink, window.kept()) {
        Ok(()) => {
            window.begin(0, 0);
            Ok(())
        }
        Err(fault) => {
            window.begin(0, 0);
            Err(fault)
        }
    }
}
