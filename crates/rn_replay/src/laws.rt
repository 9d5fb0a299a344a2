//! What a replay accepts and refuses.
ghost use Rattle.rn_replay.specs.Laws.{RefusedAreUntrue, RefusedForOneCause, ReplayedAreTrue};

/// What is replayed is a true record. What a replay refuses for a cause isn't, so a true one is
/// replayed unless memory runs out; and it is refused for one cause, by one number.
pub fn replay_laws()
    ensures replayed { ReplayedAreTrue }
    ensures refused { RefusedAreUntrue }
    ensures one { RefusedForOneCause }
{}
