//! Workers that aren't needed stand by: they sleep until they are called, or the log has ended.
ghost use Rattle.std.specs.Prelude.{◌≡◌};

use rn_choices::Asked;
use rn_finder::{Finding, Flag, Halt};
use std::sync::Wait;
use std::sync::atomic::{AtomicU64, Ordering};

/// Below so many steps a search is short, so that another would fire as fast what it found.
const SHORT: u64 = 96;

/// What a search of a spare may cost.
const SPARED: u64 = 128;

/// After so many rounds in a row that were of no use a worker stands by.
const PATIENCE: u32 = 2;

/// How much the first worker's searches cost before it calls the first helper.
const FIRST_CALL: u64 = 1024;

/// How much they cost between two calls at least, and at most.
const OFTEN: u64 = 256;

const SELDOM: u64 = 65536;

/// Before the first worker has begun nobody sleeps, since nobody might wake.
const NEW: u64 = 0;

/// The first worker goes its rounds, so others may sleep.
const UNDER_WAY: u64 = 1;

/// A worker has seen the log's end, so nobody sleeps any more.
const ENDED: u64 = 2;

/// What a worker is for.
#[derive(Clone, Copy, Debug, PartialEq, Eq)]
pub(crate) enum WorkerRole {
    /// It never sleeps here, and calls others.
    First,
    /// It is called.
    Helper,
    /// There is no processor for it. It takes part at first, and isn't called.
    Spare,
}

/// What all workers share beside the desk: whether one of them has seen the log's end, two words at
/// which those sleep that aren't needed, and how often they are called.
#[derive(Drop)]
pub(crate) struct Standby {
    stop: Flag,
    processors: u32,
    helpers: AtomicU64,
    spares: AtomicU64,

    /// How much the first worker's searches cost between two calls.
    every: AtomicU64,
}

impl Standby {
    /// Nobody has begun. So many workers may be of use at once.
    pub(crate) fn new(processors: u32) -> Standby {
        Standby {
            stop: Flag::new(),
            processors,
            helpers: AtomicU64::new(NEW),
            spares: AtomicU64::new(NEW),
            every: AtomicU64::new(FIRST_CALL),
        }
    }

    /// What the worker of a number is for.
    pub(crate) fn role_of(&self, worker: u32) -> WorkerRole {
        if worker <= 1 {
            WorkerRole::First
        } else if worker <= self.processors {
            WorkerRole::Helper
        } else {
            WorkerRole::Spare
        }
    }

    /// A worker begins. From when the first one does others may sleep.
    pub(crate) fn begin(&self, role: WorkerRole) {
        if role == WorkerRole::First {
            self.helpers.fetch_max(UNDER_WAY, Ordering::SeqCst);
            self.spares.fetch_max(UNDER_WAY, Ordering::SeqCst);
        }
    }

    /// A worker has seen the log's end: searches end, and all wake, for good.
    pub(crate) fn end(&self) {
        self.stop.raise();
        self.helpers.store(ENDED, Ordering::SeqCst);
        self.spares.store(ENDED, Ordering::SeqCst);
        self.helpers.wake_all();
        self.spares.wake_all();
    }

    /// Sleeps until it is called or the log has ended, but not before the first worker has begun. It may
    /// return for no reason. Nobody who sleeps has a ticket, a turn or a snapshot.
    pub(crate) fn sleep<R: Wait>(&self, rt: &R, role: WorkerRole) {
        if role == WorkerRole::Spare {
            self.spares.park(rt, UNDER_WAY as u32);
        } else {
            self.helpers.park(rt, UNDER_WAY as u32);
        }
    }

    // Whether a worker may sleep here.
    fn is_under_way(&self) -> bool {
        self.helpers.load(Ordering::SeqCst) == UNDER_WAY
    }

    // Wakes a helper that sleeps, and says after how much more the next one is called.
    fn call(&self) -> u64 {
        self.helpers.wake_one();
        self.every.load(Ordering::SeqCst)
    }

    // A call was of use, so that more are made, or of none, so that fewer are.
    fn note_call(&self, is_useful: bool) {
        let every = self.every.load(Ordering::SeqCst);
        let next = if is_useful {
            every / 2
        } else {
            every.saturating_mul(2)
        };
        self.every
            .store(next.max(OFTEN).min(SELDOM), Ordering::SeqCst);
    }
}

/// What a worker knows of its rounds, and what its searches ask: whether they go on.
#[derive(Drop)]
pub(crate) struct Watch<'a> {
    standby: &'a Standby,
    role: WorkerRole,

    /// What was spent when the search began, and the effort then.
    began: u64,
    effort: u64,

    /// The first worker calls a helper once so much is spent.
    next: AtomicU64,

    /// How many rounds in a row were of no use.
    idle: u32,

    /// Whether it has stood by.
    stood_by: bool,
}

impl<'a> Watch<'a> {
    /// No round was made yet.
    pub(crate) fn new(standby: &'a Standby, role: WorkerRole) -> Watch<'a> {
        Watch {
            standby,
            role,
            began: 0,
            effort: 0,
            next: AtomicU64::new(FIRST_CALL),
            idle: 0,
            stood_by: false,
        }
    }

    /// A search begins.
    pub(crate) fn begin(&mut self, finding: &Finding) {
        self.began = finding.spent();
        self.effort = finding.effort();
    }

    /// A round is over, in which the search was stopped or not, and the worker fired or not.
    pub(crate) fn note_round(&mut self, finding: &Finding, stopped: bool, fired: bool) {
        let effort = finding.effort().wrapping_sub(self.effort);
        match self.role {
            WorkerRole::First => self.note_own(fired),
            WorkerRole::Helper => self.note_helped(fired && effort >= SHORT),
            WorkerRole::Spare if stopped => self.idle = PATIENCE,
            WorkerRole::Spare => self.idle = self.idle.saturating_add(1),
        }
    }

    // The first worker comes too late only where another was faster, so that its calls are of no use.
    fn note_own(&self, fired: bool) {
        if !fired && self.next.load(Ordering::SeqCst) > FIRST_CALL {
            self.standby.note_call(false);
        }
    }

    // The round of a helper was of use or not: whether it fired after a search that wasn't short.
    fn note_helped(&mut self, is_useful: bool) {
        if self.stood_by {
            self.standby.note_call(is_useful);
        }
        self.idle = if is_useful {
            0
        } else {
            self.idle.saturating_add(1)
        };
    }

    /// Whether a worker stands by now.
    pub(crate) fn stands_by(&mut self) -> bool {
        let rests = self.role != WorkerRole::First
            && self.idle >= PATIENCE
            && self.standby.is_under_way();
        self.stood_by = self.stood_by || rests;
        rests
    }

    // Whether the search of a spare ends here, since it is long.
    fn is_cut_off(&self, spent: u64) -> bool {
        self.role == WorkerRole::Spare && spent.wrapping_sub(self.began) >= SPARED
    }

    // The first worker calls a helper where that is due.
    fn call_at(&self, spent: u64) {
        if self.role == WorkerRole::First && spent >= self.next.load(Ordering::SeqCst) {
            let every = self.standby.call();
            self.next
                .store(spent.saturating_add(every), Ordering::SeqCst);
        }
    }
}

impl Asked for Watch<'_> {
    ghost use Rattle.rn_choices.specs.declared.flag.Halt.TheVariants.{Stopped};

    type Halt = Halt;

    ghost halts = { λ halt. halt ≡ Stopped };

    /// The search ends once a worker has seen the log's end. That of the first worker calls helpers, and
    /// that of a spare ends where it is long.
    fn go_on(&self, spent: u64) -> Result<(), Halt> {
        self.call_at(spent);
        if self.is_cut_off(spent) || self.standby.stop.is_raised() {
            return Err(Halt::Stopped);
        }
        Ok(())
    }
}
