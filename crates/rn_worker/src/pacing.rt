//! How often a worker lists what may be dropped.
ghost use Rattle.std.specs.Prelude.{◌≡◌, MatchBool, false};
ghost use Rattle.rn_worker.specs.Pacing.{IsDue, paced};

/// How many live instances and tokens a worker may meet, as it lists what isn't live, for each of its
/// firings since it last did.
const MET_A_FIRING: u64 = 4;

/// How often a worker fired since it last listed what may be dropped, and how many instances were live
/// then, with their tokens.
#[derive(Clone, Copy)]
pub struct Pace {
    pub since: u64,
    pub live: u64,
}

impl Pace {
    /// It has neither fired nor listed anything.
    pub fn new() -> Pace
        ensures { result ≡ record { since = 0; live = 0 } }
    {
        Pace { since: 0, live: 0 }
    }

    /// Whether a worker lists what may be dropped, where the next instance gets this number: after each
    /// so many firings of its own, but after no fewer than a quarter of what was live when it last did;
    /// never where that is 0, nor before an instance was made beside the first.
    ///
    /// To list it is a walk over all that is live. So where much is, walks are rarer, and cost a
    /// constant share of the time that firings take.
    pub fn is_due(self, every: u32, next: u32) -> bool
        ensures exact { MatchBool result (IsDue every next self) (¬ IsDue every next self) }
        ensures never { every ≡ 0 → result ≡ false }
    {
        every != 0 && next > 2 && self.since >= (every as u64).max(self.live / MET_A_FIRING)
    }

    /// After a round: how many instances and tokens were live, where it listed what wasn't, and whether
    /// it fired.
    pub fn after(self, live: Option<u64>, fired: bool) -> Pace
        ensures { result ≡ paced self live fired }
    {
        let pace = match live {
            Some(live) => Pace { since: 0, live },
            None => self,
        };
        if !fired {
            return pace;
        }
        Pace {
            since: pace.since.saturating_add(1),
            live: pace.live,
        }
    }
}
