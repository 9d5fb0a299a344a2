//! Laws of the workload text, as the contract of a function that does nothing.
ghost use Rattle.rn_gen.specs.Laws.{WorkloadIsAccepted, WorkloadIsCanonical};
ghost use Rattle.rn_gen.specs.Laws.{WorkloadIsNotRefused};

use rn_net::net_laws;

/// The workload text is a net text in which no rule is broken, and is the canonical text of it.
///
/// It does nothing: its clauses say what holds of the text of each number of workers.
pub fn workload_laws()
    ensures accepted { WorkloadIsAccepted }
    ensures canonical { WorkloadIsCanonical }
    ensures not_refused { WorkloadIsNotRefused }
{
    // For its clauses: a text spells one system at most, and is then refused for no reason.
    net_laws();
}
