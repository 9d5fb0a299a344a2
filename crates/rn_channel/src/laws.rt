//! Laws of calls.
ghost use Rattle.rn_channel.specs.Heights.{CallsNeedLevels, MoreLevelsSuffice};

/// Below each node of a binding of the shape within a depth the levels that are left suffice for
/// its transition. So a transition that needs more takes no part there. What suffices still does
/// with one level more.
pub fn calls_need_levels()
    ensures needed { CallsNeedLevels }
    ensures more { MoreLevelsSuffice }
{}
