//! The lines of a binding.
ghost use Rattle.std.specs.Prelude.{◌≡◌, ◌≤◌, length, take};
ghost use Rattle.rn_window.specs.Windows.{after};
ghost use Rattle.rn_record.specs.RecordText.{names_after, binding_text};
ghost use Rattle.rn_record.specs.Writable.{HasLines};

use rn_model::{Binding, System};
use rn_spell::{Naming, Numbered, put_nodes};
use rn_window::{Text, Window};

/// The lines of a binding's nodes, each after a lead.
///
/// All instances have their names by `names`, those that the binding makes too. These follow the
/// others, of which there are `before`, and so they are numbered from the next one on.
#[derive(Drop)]
pub struct BindingText<'a, N: Naming, L: Text> {
    pub system: &'a System,
    pub binding: &'a Binding,
    pub names: &'a N,
    pub before: usize,
    pub lead: &'a L,
    pub ghost within: { before ≤ length (N.names names.now) },
    pub ghost named: { N.names names.now
        ≡ names_after system.now (take before (N.names names.now)) binding.now },
    pub ghost fits: { HasLines system.now (take before (N.names names.now)) binding.now },
}

impl<'a, N: Naming, L: Text> Text for BindingText<'a, N, L> {
    ghost text = { λ t. binding_text t.system.now (take t.before (N.names t.names.now))
        (L.text t.lead.now) t.binding.now };

    fn put(&self, window: &mut Window) {
        put_lines(
            self.system,
            self.binding,
            self.names,
            self.before,
            self.lead,
            window,
        );
    }
}

/// Writes the lines of a binding's nodes, where there were so many instances before.
pub(crate) fn put_lines<N: Naming, L: Text>(
    system: &System,
    binding: &Binding,
    names: &N,
    before: usize,
    lead: &L,
    window: &mut Window,
)
    requires within { before ≤ length (N.names names.now) }
    requires named { N.names names.now
        ≡ names_after system.now (take before (N.names names.now)) binding.now }
    requires fits { HasLines system.now (take before (N.names names.now)) binding.now }
    ensures { window.new ≡ after window.old
        (binding_text system.now (take before (N.names names.now)) (L.text lead.now) binding.now) }
{
    let nodes = binding.nodes.as_slice();
    let numbered = Numbered::new(names, system, nodes, before as u32 + 1);
    put_nodes(system, nodes, &numbered, lead, window);
}
