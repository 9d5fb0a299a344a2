//! The lines of an entry of a run.
ghost use Rattle.std.specs.Prelude.{◌≡◌, ◌≤◌, ◌++◌, length, take, flat_map};
ghost use Rattle.rn_value.specs.declared.value.InstRef.{InstRef};
ghost use Rattle.rn_value.specs.Text.{inst_text};
ghost use Rattle.rn_window.specs.Windows.{after};
ghost use Rattle.rn_record.specs.RecordText.{firing_lead, printed_line, cause_text, fault_line};
ghost use Rattle.rn_record.specs.RecordText.{end_text, entry_text};
ghost use Rattle.rn_record.specs.Writable.{HasEnd, HasEntry};
ghost use Rattle.rn_record.specs.Named.{names_with, names_with_end, HasEntry-prop};

use crate::lines::put_lines;
use crate::values::put_numbered;
use rn_model::{Entry, FaultKind, Reason, System};
use rn_spell::{Naming, put_numeral};
use rn_value::Value;
use rn_window::{Plain, Text, Window};

/// What each line of a firing begins with: its number, and its worker, as `3 w1 `.
#[derive(Drop)]
pub struct FiringLead {
    pub step: u64,
    pub worker: u32,
}

impl Text for FiringLead {
    ghost text = { λ l. firing_lead l.step l.worker };

    #[tactic(auto, using(rn_window::proofs::Windows::written))]
    fn put(&self, window: &mut Window) {
        put_numeral(self.step, window);
        window.put(b" w");
        put_numeral(self.worker as u64, window);
        window.put(b" ");
    }
}

/// The lines of the entry with this number: of a firing those of its binding, and what it printed;
/// of an end its line, and those of a fault's binding.
///
/// All instances have their names by `names`, those that the binding makes, or would make, too.
/// There were `before` others.
#[derive(Drop)]
pub struct EntryText<'a, N: Naming> {
    pub system: &'a System,
    pub step: u64,
    pub entry: &'a Entry,
    pub names: &'a N,
    pub before: usize,
    pub ghost within: { before ≤ length (N.names names.now) },
    pub ghost named: { N.names names.now
        ≡ names_with system.now (take before (N.names names.now)) entry.now },
    pub ghost plain: { (i : InstRef) → inst_text (N.names names.now) (N.renamed names.now i)
        ≡ inst_text (N.names names.now) i },
    pub ghost fits: { HasEntry system.now (take before (N.names names.now)) entry.now } by { HasEntry-prop system.now (take before (N.names names.now)) entry.now },
}

impl<'a, N: Naming> Text for EntryText<'a, N> {
    ghost text = { λ t. entry_text t.system.now (take t.before (N.names t.names.now))
        t.step t.entry.now };

    #[tactic(auto, using(rn_window::proofs::Windows::written))]
    fn put(&self, window: &mut Window) {
        match self.entry {
            Entry::Fire {
                worker,
                binding,
                outs,
            } => {
                let lead = FiringLead {
                    step: self.step,
                    worker: *worker,
                };
                put_lines(self.system, binding, self.names, self.before, &lead, window);
                put_printed(outs.as_slice(), self.names, &lead, window);
            }
            Entry::End(reason) => put_end(self.system, reason, self.names, self.before, window),
        }
    }
}

#[tactic(auto, using(rn_window::proofs::Windows::written))]
fn put_printed<N: Naming>(outs: &[Value], names: &N, lead: &FiringLead, window: &mut Window)
    requires { (i : InstRef) → inst_text (N.names names.now) (N.renamed names.now i)
        ≡ inst_text (N.names names.now) i }
    ensures { window.new ≡ after window.old (flat_map
        (printed_line (N.names names.now) (firing_lead lead.now.step lead.now.worker)) outs.now) }
{
    for value in outs {
        put_line(value, names, lead, window);
    }
}

#[tactic(auto, using(rn_window::proofs::Windows::written))]
fn put_line<N: Naming>(value: &Value, names: &N, lead: &FiringLead, window: &mut Window)
    requires { (i : InstRef) → inst_text (N.names names.now) (N.renamed names.now i)
        ≡ inst_text (N.names names.now) i }
    ensures { window.new ≡ after window.old
        (printed_line (N.names names.now) (firing_lead lead.now.step lead.now.worker) value.now) }
{
    lead.put(window);
    window.put(b"> ");
    put_numbered(value, names, window);
    window.put(b"\n");
}

#[tactic(auto, using(rn_window::proofs::Windows::written))]
fn put_end<N: Naming>(
    system: &System,
    reason: &Reason,
    names: &N,
    before: usize,
    window: &mut Window,
)
    requires within { before ≤ length (N.names names.now) }
    requires named { N.names names.now
        ≡ names_with_end system.now (take before (N.names names.now)) reason.now }
    requires fits { HasEnd system.now (take before (N.names names.now)) reason.now }
    ensures { window.new ≡ after window.old
        (end_text system.now (take before (N.names names.now)) reason.now) }
{
    match reason {
        Reason::Dead => window.put(b"end dead\n"),
        Reason::Steps => window.put(b"end steps\n"),
        Reason::Memory => window.put(b"end memory\n"),
        Reason::Fault(cause, binding) => {
            put_fault_line(*cause, window);
            let lead = Plain { bytes: b"! " };
            put_lines(system, binding, names, before, &lead, window);
        }
    }
}

#[tactic(auto, using(rn_window::proofs::Windows::written))]
fn put_fault_line(cause: FaultKind, window: &mut Window)
    ensures { window.new ≡ after window.old (fault_line cause) }
{
    window.put(b"end fault ");
    put_cause(cause, window);
    window.put(b"\n");
}

fn put_cause(cause: FaultKind, window: &mut Window)
    ensures { window.new ≡ after window.old (cause_text cause) }
{
    match cause {
        FaultKind::Action => window.put(b"action"),
        FaultKind::Instances => window.put(b"instances"),
    }
}
