//! Marks that flow through a window into a sink.
ghost use Rattle.std.specs.Prelude.{◌≡◌, ◌≢◌, ◌↔◌, ◌<◌, ◌^◌, ℕ, [], Some, true, length};
ghost use Rattle.std.specs.Prelude.{OnOk, OnErr};
ghost use Rattle.std.specs.Prelude.{List};
ghost use Rattle.rn_model.specs.declared.log.MarkLine.{MarkLine};
ghost use Rattle.rn_model.specs.Liveness.{IsLive, LivePart};
ghost use Rattle.rn_model.specs.Markings.{Instance, instance_at, net_of};
ghost use Rattle.rn_live.specs.Rooms.{is_marked};
ghost use Rattle.rn_live.specs.link.Marks.{places_of};
ghost use Rattle.rn_pour.specs.Flows.{Flows, Breaks};
ghost use Rattle.rn_window.specs.Windows.{top};
ghost use Rattle.rn_end_marking.specs.MarkTexts.{AreShort, line_text, marks_text};
ghost use Rattle.rn_end_marking.specs.link.Lines.{AreShortAt, line_of, lines_from, marked_lines};

use crate::line::PlaceLine;
use rn_live::LiveRoom;
use rn_model::System;
use rn_outside::{Sink, WriteFault};
use rn_pour::pour;
use rn_spell::NetNames;
use rn_table::Table;
use rn_window::Window;

/// The marks of the live part of a table, as they are written.
#[derive(Drop)]
pub struct LiveMarks<'a> {
    pub system: &'a System,
    pub table: &'a Table,
    /// Where the live instances of the table are marked.
    pub live: &'a LiveRoom,
    /// The index of the net of each instance, from the one with number 1.
    pub nets: &'a [u32],
    /// 1 or 2.
    pub format: u32,
}

/// Writes the lines of marks through a window into a sink. It takes no memory.
pub fn pour_marks<O: Sink>(
    marks: &LiveMarks<'_>,
    window: &mut Window,
    sink: &mut O,
) -> Result<(), WriteFault>
    requires room { 0 < window.old.room }
    requires live { (n : ℕ) → (is_marked marks.now.live.now.marks n ≡ true)
        ↔ IsLive marks.now.system.now marks.now.table.now.marking n }
    requires places { (n : ℕ) (i : Instance) →
        instance_at marks.now.table.now.marking n ≡ Some i → length i.places < 2 ^ 32 }
    requires short { AreShort marks.now.format marks.now.system.now marks.now.nets.now
        marks.now.table.now.marking }
    ensures ok { OnOk result ((lines : List MarkLine) →
        LivePart marks.now.system.now marks.now.table.now.marking lines → (Flows
        (record {
          held = O.held sink.old;
          faults = O.faults sink.old;
          writes = O.writes sink.old;
          empty_writes = O.empty_writes sink.old;
        })
        window.old.kept (marks_text marks.now.format marks.now.system.now marks.now.nets.now
        lines)
        (record {
          held = O.held sink.new;
          faults = O.faults sink.new;
          writes = O.writes sink.new;
          empty_writes = O.empty_writes sink.new;
        })
        window.new.kept)) }
    ensures err { OnErr result ((lines : List MarkLine) →
        LivePart marks.now.system.now marks.now.table.now.marking lines → (Breaks
        (record {
          held = O.held sink.old;
          faults = O.faults sink.old;
          writes = O.writes sink.old;
          empty_writes = O.empty_writes sink.old;
        })
        window.old.kept (marks_text marks.now.format marks.now.system.now marks.now.nets.now
        lines)
        (record {
          held = O.held sink.new;
          faults = O.faults sink.new;
          writes = O.writes sink.new;
          empty_writes = O.empty_writes sink.new;
        }))) }
    ensures room { window.new.room ≡ window.old.room }
{
    for number in 0..marks.table.next() {
        pour_instance(marks, number, window, sink)?;
    }
    Ok(())
}

// Writes the lines of an instance, where its number is marked.
#[tactic(auto, using(rn_pour::proofs::Flows::flows_nothing))]
fn pour_instance<O: Sink>(
    marks: &LiveMarks<'_>,
    number: u32,
    window: &mut Window,
    sink: &mut O,
) -> Result<(), WriteFault>
    requires room { 0 < window.old.room }
    requires places { length (places_of marks.now.table.now.marking number) < 2 ^ 32 }
    requires short { is_marked marks.now.live.now.marks number ≡ true →
        AreShortAt marks.now.format marks.now.system.now marks.now.nets.now
        marks.now.table.now.marking number }
    ensures ok { OnOk result (Flows
        (record {
          held = O.held sink.old;
          faults = O.faults sink.old;
          writes = O.writes sink.old;
          empty_writes = O.empty_writes sink.old;
        })
        window.old.kept (marks_text marks.now.format marks.now.system.now marks.now.nets.now
        (marked_lines marks.now.table.now.marking marks.now.live.now.marks number))
        (record {
          held = O.held sink.new;
          faults = O.faults sink.new;
          writes = O.writes sink.new;
          empty_writes = O.empty_writes sink.new;
        })
        window.new.kept) }
    ensures err { OnErr result (Breaks
        (record {
          held = O.held sink.old;
          faults = O.faults sink.old;
          writes = O.writes sink.old;
          empty_writes = O.empty_writes sink.old;
        })
        window.old.kept (marks_text marks.now.format marks.now.system.now marks.now.nets.now
        (marked_lines marks.now.table.now.marking marks.now.live.now.marks number))
        (record {
          held = O.held sink.new;
          faults = O.faults sink.new;
          writes = O.writes sink.new;
          empty_writes = O.empty_writes sink.new;
        })) }
    ensures room { window.new.room ≡ window.old.room }
{
    if !marks.live.is_live(number) {
        return Ok(());
    }
    match marks.table.net_of(number) {
        Some(net) => pour_places(marks, number, net, window, sink),
        None => Ok(()),
    }
}

// Writes the lines of an instance of this net, place by place.
fn pour_places<O: Sink>(
    marks: &LiveMarks<'_>,
    number: u32,
    net: u32,
    window: &mut Window,
    sink: &mut O,
) -> Result<(), WriteFault>
    requires room { 0 < window.old.room }
    requires net { net_of marks.now.table.now.marking number ≡ Some net }
    requires places { length (places_of marks.now.table.now.marking number) < 2 ^ 32 }
    requires short { AreShortAt marks.now.format marks.now.system.now marks.now.nets.now
        marks.now.table.now.marking number }
    ensures ok { OnOk result (Flows
        (record {
          held = O.held sink.old;
          faults = O.faults sink.old;
          writes = O.writes sink.old;
          empty_writes = O.empty_writes sink.old;
        })
        window.old.kept (marks_text marks.now.format marks.now.system.now marks.now.nets.now
        (lines_from number net 0 (places_of marks.now.table.now.marking number)))
        (record {
          held = O.held sink.new;
          faults = O.faults sink.new;
          writes = O.writes sink.new;
          empty_writes = O.empty_writes sink.new;
        })
        window.new.kept) }
    ensures err { OnErr result (Breaks
        (record {
          held = O.held sink.old;
          faults = O.faults sink.old;
          writes = O.writes sink.old;
          empty_writes = O.empty_writes sink.old;
        })
        window.old.kept (marks_text marks.now.format marks.now.system.now marks.now.nets.now
        (lines_from number net 0 (places_of marks.now.table.now.marking number)))
        (record {
          held = O.held sink.new;
          faults = O.faults sink.new;
          writes = O.writes sink.new;
          empty_writes = O.empty_writes sink.new;
        })) }
    ensures room { window.new.room ≡ window.old.room }
{
    let names = NetNames {
        system: marks.system,
        nets: marks.nets,
    };
    for place in 0..u32::MAX {
        let Some(bag) = marks.table.bag(number, place) else {
            return Ok(());
        };
        let line = PlaceLine {
            names: &names,
            format: marks.format,
            number,
            net,
            place,
            bag,
        };
        pour_place(&line, window, sink)?;
    }
    Ok(())
}

// Writes the line of a place, where it holds tokens.
#[tactic(auto, using(rn_pour::proofs::Flows::flows_nothing))]
fn pour_place<O: Sink>(
    line: &PlaceLine<'_>,
    window: &mut Window,
    sink: &mut O,
) -> Result<(), WriteFault>
    requires room { 0 < window.old.room }
    requires short { line.now.bag.now ≢ [] → length (line_text line.now.format
        line.now.names.now.system.now line.now.names.now.nets.now
        (record {
          inst = line.now.number;
          net = line.now.net;
          place = line.now.place;
          values = line.now.bag.now;
        })) < top }
    ensures ok { OnOk result (Flows
        (record {
          held = O.held sink.old;
          faults = O.faults sink.old;
          writes = O.writes sink.old;
          empty_writes = O.empty_writes sink.old;
        })
        window.old.kept (marks_text line.now.format line.now.names.now.system.now
        line.now.names.now.nets.now
        (line_of line.now.number line.now.net line.now.place line.now.bag.now))
        (record {
          held = O.held sink.new;
          faults = O.faults sink.new;
          writes = O.writes sink.new;
          empty_writes = O.empty_writes sink.new;
        })
        window.new.kept) }
    ensures err { OnErr result (Breaks
        (record {
          held = O.held sink.old;
          faults = O.faults sink.old;
          writes = O.writes sink.old;
          empty_writes = O.empty_writes sink.old;
        })
        window.old.kept (marks_text line.now.format line.now.names.now.system.now
        line.now.names.now.nets.now
        (line_of line.now.number line.now.net line.now.place line.now.bag.now))
        (record {
          held = O.held sink.new;
          faults = O.faults sink.new;
          writes = O.writes sink.new;
          empty_writes = O.empty_writes sink.new;
        })) }
    ensures room { window.new.room ≡ window.old.room }
{
    if line.bag.is_empty() {
        return Ok(());
    }
    pour(line, window, sink)
}
