//! Laws over the definitions, each the contract of a function that does nothing.
ghost use Rattle.rn_least.specs.Laws.{LeastBindingsAreOne, LeastLogsAreAlike, LeastRunsGrow};
ghost use Rattle.rn_least.specs.Laws.{MemoryEndsEarlier, MemoryEndsInLine, PrefixesAreLeastRuns};

/// At each marking at most one binding is the first of those that are enabled.
pub fn least_bindings_are_one()
    ensures { LeastBindingsAreOne }
{}

/// Firings with one more are a least run exactly where they are one and the last one fires at their
/// end by the first binding that is enabled there; and a prefix of a least run is one.
pub fn least_runs_grow()
    ensures grow { LeastRunsGrow }
    ensures prefixes { PrefixesAreLeastRuns }
{}

/// Two least logs of one system, depth and step limit are the same but for the numbers of workers.
/// One that ended out of memory may end earlier.
pub fn least_logs_are_one()
    ensures alike { LeastLogsAreAlike }
    ensures earlier { MemoryEndsEarlier }
    ensures line { MemoryEndsInLine }
{}
