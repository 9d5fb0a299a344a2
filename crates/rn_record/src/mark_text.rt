//! The line of a mark.
ghost use Rattle.std.specs.Prelude.{◌≡◌, flat_map};
ghost use Rattle.rn_value.specs.declared.value.InstRef.{InstRef};
ghost use Rattle.rn_value.specs.Text.{inst_text};
ghost use Rattle.rn_model.specs.Systems.{net_at};
ghost use Rattle.rn_model.specs.Repeats.{times, values_of};
ghost use Rattle.rn_window.specs.Windows.{after};
ghost use Rattle.rn_record.specs.RecordText.{place_name, place_text, token_text, count_text};
ghost use Rattle.rn_record.specs.RecordText.{item_text, tokens_text, mark_text};

use crate::values::put_numbered;
use rn_model::{MarkLine, Repeat, Repeats, System, places_of, repeats_hold_values};
use rn_spell::{Naming, put_instance, put_numeral};
use rn_value::Value;
use rn_window::{Text, Window};

/// A place of an instance, with its tokens, in format 1 or 2: as `main[1].q [] []`, or
/// `main[1].q []*2`.
#[derive(Drop)]
pub struct MarkText<'a, N: Naming> {
    pub system: &'a System,
    pub format: u32,
    pub line: &'a MarkLine,
    pub names: &'a N,
    pub ghost plain: { (i : InstRef) → inst_text (N.names names.now) (N.renamed names.now i)
        ≡ inst_text (N.names names.now) i },
}

impl<'a, N: Naming> Text for MarkText<'a, N> {
    ghost text = { λ t. mark_text t.format t.system.now (N.names t.names.now) t.line.now };

    #[tactic(auto, using(rn_window::proofs::Windows::written))]
    fn put(&self, window: &mut Window) {
        put_place(self.system, self.line, window);
        put_tokens(self.format, &self.line.values, self.names, window);
        window.put(b"\n");
    }
}

/// The name of a place of a net, and nothing where there is no such place.
pub(crate) fn place_bytes(system: &System, net: u32, place: u32) -> &[u8]
    ensures { result.now ≡ place_name (net_at system.now net) place }
{
    match places_of(system, net).get(place as usize) {
        Some(place) => place.name.as_str().as_bytes(),
        None => &[],
    }
}

#[tactic(auto, using(rn_window::proofs::Windows::written))]
fn put_place(system: &System, line: &MarkLine, window: &mut Window)
    ensures { window.new ≡ after window.old (place_text system.now line.now) }
{
    put_instance(system, line.net, line.inst, window);
    window.put(b".");
    window.put(place_bytes(system, line.net, line.place));
}

fn put_tokens<N: Naming>(format: u32, values: &Repeats, names: &N, window: &mut Window)
    requires { (i : InstRef) → inst_text (N.names names.now) (N.renamed names.now i)
        ≡ inst_text (N.names names.now) i }
    ensures { window.new ≡ after window.old (tokens_text format (N.names names.now) values.now) }
{
    repeats_hold_values();
    if format == 1 {
        put_all(values.as_slice(), names, window)
    } else {
        put_items(values.as_slice(), names, window)
    }
}

/// Writes the values one by one.
#[tactic(auto, using(rn_window::proofs::Windows::written))]
fn put_all<N: Naming>(repeats: &[Repeat], names: &N, window: &mut Window)
    requires { (i : InstRef) → inst_text (N.names names.now) (N.renamed names.now i)
        ≡ inst_text (N.names names.now) i }
    ensures { window.new ≡ after window.old
        (flat_map (token_text (N.names names.now)) (values_of repeats.now)) }
{
    for repeat in repeats {
        put_each(repeat, names, window);
    }
}

/// Writes a value as often as it stands there.
#[tactic(auto, using(rn_window::proofs::Windows::written))]
fn put_each<N: Naming>(repeat: &Repeat, names: &N, window: &mut Window)
    requires { (i : InstRef) → inst_text (N.names names.now) (N.renamed names.now i)
        ≡ inst_text (N.names names.now) i }
    ensures { window.new ≡ after window.old
        (flat_map (token_text (N.names names.now)) (times repeat.now)) }
{
    for _ in 0..repeat.count {
        put_token(&repeat.value, names, window);
    }
}

/// Writes the values, each with its number.
#[tactic(auto, using(rn_window::proofs::Windows::written))]
fn put_items<N: Naming>(repeats: &[Repeat], names: &N, window: &mut Window)
    requires { (i : InstRef) → inst_text (N.names names.now) (N.renamed names.now i)
        ≡ inst_text (N.names names.now) i }
    ensures { window.new ≡ after window.old
        (flat_map (item_text (N.names names.now)) repeats.now) }
{
    for repeat in repeats {
        put_item(repeat, names, window);
    }
}

#[tactic(auto, using(rn_window::proofs::Windows::written))]
fn put_item<N: Naming>(repeat: &Repeat, names: &N, window: &mut Window)
    requires { (i : InstRef) → inst_text (N.names names.now) (N.renamed names.now i)
        ≡ inst_text (N.names names.now) i }
    ensures { window.new ≡ after window.old (item_text (N.names names.now) repeat.now) }
{
    put_token(&repeat.value, names, window);
    put_count(repeat.count, window);
}

#[tactic(auto, using(rn_window::proofs::Windows::written))]
fn put_token<N: Naming>(value: &Value, names: &N, window: &mut Window)
    requires { (i : InstRef) → inst_text (N.names names.now) (N.renamed names.now i)
        ≡ inst_text (N.names names.now) i }
    ensures { window.new ≡ after window.old (token_text (N.names names.now) value.now) }
{
    window.put(b" ");
    put_numbered(value, names, window);
}

#[tactic(auto, using(rn_window::proofs::Windows::written))]
fn put_count(count: u64, window: &mut Window)
    ensures { window.new ≡ after window.old (count_text count) }
{
    if count == 1 {
        return;
    }
    window.put(b"*");
    put_numeral(count, window);
}
