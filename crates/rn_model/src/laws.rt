//! Laws over the definitions, each the contract of a function that does nothing.
ghost use Rattle.rn_model.specs.Laws.{NextIsFree, PrefixesAreRuns, PrefixesAreLogs, RunsGrow};
ghost use Rattle.rn_model.specs.ListLaws.{OrderedValuesAscend, OrderedValuesStay, OthersAreTaken};
ghost use Rattle.rn_model.specs.MarkingLaws.{InitialIsMarking, FiringsKeepMarkings};
ghost use Rattle.rn_model.specs.MarkingLaws.{RunsEndInMarkings, InitialTokensAreSound};
ghost use Rattle.rn_model.specs.DerivationLaws.{OwnValuesSatisfy, ForcedIsOwn, ForcedStays};
ghost use Rattle.rn_model.specs.LivenessLaws.{EnabledNameLive, DeadStayDead, DeadStayDeadInRuns};
ghost use Rattle.rn_model.specs.LivenessLaws.{TablesHaveTheSameLive, TablesEnableTheSame};
ghost use Rattle.rn_model.specs.LivenessLaws.{TablesFireAlike, TablesStandAfter, StandingIsTransitive};
ghost use Rattle.rn_model.specs.LivenessLaws.{DroppingKeeps, MarkingsStandForThemselves};
ghost use Rattle.rn_model.specs.LivenessLaws.{FiringsKeepTokensSound, RunsEndSound};
ghost use Rattle.rn_model.specs.LivenessLaws.{FiringsReportWhatIsThere};
ghost use Rattle.rn_model.specs.Laws.{EndsFollow, DeadRunsStop, LogsEndOnce, LooksAtItsOwn};

/// Whether a binding is enabled doesn't depend on the number that the next instance gets.
pub fn next_number_is_free()
    ensures { NextIsFree }
{}

/// Whether a binding is enabled depends on those instances alone on which its nodes stand.
pub fn bindings_look_at_their_own()
    ensures { LooksAtItsOwn }
{}

/// A prefix of a run is a run.
pub fn prefixes_are_runs()
    ensures { PrefixesAreRuns }
{}

/// The first firings of a log are a log that hasn't ended.
pub fn prefixes_are_logs()
    ensures { PrefixesAreLogs }
{}

/// Firings with one more are a run exactly where they are a run and the last one fires at their
/// end; and what their end then is.
pub fn runs_grow()
    ensures run { RunsGrow }
    ensures end { EndsFollow }
{}

/// Where no binding is enabled at the end of firings, no run goes on from there.
pub fn dead_runs_stop()
    ensures { DeadRunsStop }
{}

/// After the same firings at most one of the ends Dead, Steps and Fault is true. Two faults may
/// both be, by different bindings.
pub fn logs_end_once()
    ensures { LogsEndOnce }
{}

/// Where a binding of the shape agrees, some assignment gives its variables their own values and
/// satisfies the equations of all its items.
pub fn own_values_satisfy()
    ensures { OwnValuesSatisfy }
{}

/// A variable of such a binding that is forced has no other value than its own; and what is forced
/// stays so as further items come in.
pub fn forced_is_own()
    ensures own { ForcedIsOwn }
    ensures stays { ForcedStays }
{}

/// Ordered values ascend and are the same as before; and what values are left without others, by
/// how often each is there.
pub fn lists_of_values()
    ensures ascend { OrderedValuesAscend }
    ensures stay { OrderedValuesStay }
    ensures taken { OthersAreTaken }
{}

/// The initial marking of a good system is a marking: its numbers ascend below the next one, each
/// instance has its net's places, and tokens ascend. Firings of enabled bindings keep that.
pub fn runs_end_in_markings()
    ensures initial { InitialIsMarking }
    ensures kept { FiringsKeepMarkings }
    ensures ends { RunsEndInMarkings }
{}

/// The initial tokens of a good system have their places' kinds and name no instance.
pub fn initial_tokens_are_sound()
    ensures { InitialTokensAreSound }
{}

/// Where a binding is enabled at a marking with sound tokens, each existing instance that its nodes
/// stand on or that their values mention is live.
pub fn enabled_name_live()
    ensures { EnabledNameLive }
{}

/// An instance that is there and isn't live isn't live after any firing of an enabled binding, nor
/// at any later end of a run.
pub fn dead_stay_dead()
    ensures firing { DeadStayDead }
    ensures run { DeadStayDeadInRuns }
{}

/// Firings of enabled bindings keep tokens sound, and so they are at the end of each run of a good
/// system.
pub fn tokens_stay_sound()
    ensures kept { FiringsKeepTokensSound }
    ensures ends { RunsEndSound }
{}

/// Where a table stands for a marking, the same is live and enabled in both, and is fired alike;
/// after the firing of an enabled binding the table stands again, and so it does without instances
/// that aren't live. A marking stands for itself.
pub fn tables_stand()
    ensures live { TablesHaveTheSameLive }
    ensures enabled { TablesEnableTheSame }
    ensures alike { TablesFireAlike }
    ensures after { TablesStandAfter }
    ensures itself { MarkingsStandForThemselves }
    ensures transitive { StandingIsTransitive }
    ensures dropped { DroppingKeeps }
{}

/// What the firing of an enabled binding reports, under the numbers of the new instances, names
/// only instances that are there after it.
pub fn firings_report_what_is_there()
    ensures { FiringsReportWhatIsThere }
{}
