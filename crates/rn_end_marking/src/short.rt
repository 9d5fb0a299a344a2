//! Whether marks have lines that can be counted.
ghost use Rattle.std.specs.Prelude.{◌≡◌, ◌≢◌, ◌↔◌, ◌<◌, ◌^◌, ℕ, [], Some, true, length, IsTrue};
ghost use Rattle.rn_model.specs.Liveness.{IsLive};
ghost use Rattle.rn_model.specs.Markings.{Instance, instance_at, net_of};
ghost use Rattle.rn_live.specs.Rooms.{is_marked};
ghost use Rattle.rn_live.specs.link.Marks.{places_of};
ghost use Rattle.rn_window.specs.Windows.{top};
ghost use Rattle.rn_end_marking.specs.MarkTexts.{AreShort, line_text};
ghost use Rattle.rn_end_marking.specs.link.Lines.{AreShortAt};

use crate::line::PlaceLine;
use crate::pouring::LiveMarks;
use rn_pour::measure;
use rn_spell::NetNames;
use rn_window::Window;

/// Whether each line has fewer than 2^64 - 1 bytes. Each is written into the window once, and
/// counted. It takes no memory.
pub fn marks_are_short(marks: &LiveMarks<'_>, window: &mut Window) -> bool
    requires live { (n : ℕ) → (is_marked marks.now.live.now.marks n ≡ true)
        ↔ IsLive marks.now.system.now marks.now.table.now.marking n }
    requires places { (n : ℕ) (i : Instance) →
        instance_at marks.now.table.now.marking n ≡ Some i → length i.places < 2 ^ 32 }
    ensures short { IsTrue result ↔ AreShort marks.now.format marks.now.system.now
        marks.now.nets.now marks.now.table.now.marking }
    ensures room { window.new.room ≡ window.old.room }
    ensures kept { window.old.kept ≡ [] → window.new.kept ≡ [] }
{
    for number in 0..marks.table.next() {
        if marks.live.is_live(number) && !are_short_at(marks, number, window) {
            return false;
        }
    }
    true
}

// Whether the line of each place of an instance is short.
fn are_short_at(marks: &LiveMarks<'_>, number: u32, window: &mut Window) -> bool
    requires { length (places_of marks.now.table.now.marking number) < 2 ^ 32 }
    ensures short { IsTrue result ↔ AreShortAt marks.now.format marks.now.system.now
        marks.now.nets.now marks.now.table.now.marking number }
    ensures room { window.new.room ≡ window.old.room }
    ensures kept { window.old.kept ≡ [] → window.new.kept ≡ [] }
{
    match marks.table.net_of(number) {
        Some(net) => places_are_short(marks, number, net, window),
        None => true,
    }
}

fn places_are_short(marks: &LiveMarks<'_>, number: u32, net: u32, window: &mut Window) -> bool
    requires net { net_of marks.now.table.now.marking number ≡ Some net }
    requires places { length (places_of marks.now.table.now.marking number) < 2 ^ 32 }
    ensures short { IsTrue result ↔ AreShortAt marks.now.format marks.now.system.now
        marks.now.nets.now marks.now.table.now.marking number }
    ensures room { window.new.room ≡ window.old.room }
    ensures kept { window.old.kept ≡ [] → window.new.kept ≡ [] }
{
    let names = NetNames {
        system: marks.system,
        nets: marks.nets,
    };
    for place in 0..u32::MAX {
        let Some(bag) = marks.table.bag(number, place) else {
            return true;
        };
        let line = PlaceLine {
            names: &names,
            format: marks.format,
            number,
            net,
            place,
            bag,
        };
        if !is_short(&line, window) {
            return false;
        }
    }
    true
}

// Whether the line of a place is short, where it holds tokens.
fn is_short(line: &PlaceLine<'_>, window: &mut Window) -> bool
    ensures short { IsTrue result ↔ (line.now.bag.now ≢ [] → length (line_text line.now.format
        line.now.names.now.system.now line.now.names.now.nets.now
        (record {
          inst = line.now.number;
          net = line.now.net;
          place = line.now.place;
          values = line.now.bag.now;
        })) < top) }
    ensures room { window.new.room ≡ window.old.room }
    ensures kept { window.old.kept ≡ [] → window.new.kept ≡ [] }
{
    line.bag.is_empty() || measure(line, window) < usize::MAX
}
