//! The commands and their options: names, limits, defaults, and which command takes which.
ghost use Rattle.std.specs.Prelude.{◌≡◌};
ghost use Rattle.rn_words.specs.Table.{verb_named, setting_named, pick_named, takes, least, most};

use rn_model::limits;

/// The first word of a command line.
#[derive(Clone, Copy, Debug, PartialEq, Eq)]
pub(crate) enum Verb {
    Run,
    Check,
    Print,
    Enabled,
    Replay,
    Gen,
    Session,
    Counts,
    Moves,
    Pt,
    Migrate,
}

/// An option: `--workers`, `--steps`, `--depth`, `--drop`, `--pick`, `--seed`.
#[derive(Clone, Copy, Debug, PartialEq, Eq)]
pub(crate) enum Setting {
    Workers,
    Steps,
    Depth,
    Sweep,
    Pick,
    Seed,
}

/// Which of the enabled bindings of a run fires next: any, or the first in their order.
#[derive(Clone, Copy, Debug, PartialEq, Eq)]
pub(crate) enum Picked {
    Any,
    Least,
}

/// The most workers that the workload text is made for.
pub(crate) const MOST_COPIES: u32 = 10_000;

/// The greatest seed.
const GREATEST_SEED: u32 = 999_999;

/// The command of a word.
pub(crate) fn verb_named(word: &[u8]) -> Option<Verb>
    ensures { result ≡ verb_named word.now }
{
    if word == b"run".as_slice() {
        Some(Verb::Run)
    } else if word == b"check".as_slice() {
        Some(Verb::Check)
    } else if word == b"print".as_slice() {
        Some(Verb::Print)
    } else if word == b"enabled".as_slice() {
        Some(Verb::Enabled)
    } else if word == b"replay".as_slice() {
        Some(Verb::Replay)
    } else if word == b"gen".as_slice() {
        Some(Verb::Gen)
    } else if word == b"session".as_slice() {
        Some(Verb::Session)
    } else if word == b"counts".as_slice() {
        Some(Verb::Counts)
    } else if word == b"moves".as_slice() {
        Some(Verb::Moves)
    } else if word == b"pt".as_slice() {
        Some(Verb::Pt)
    } else if word == b"migrate".as_slice() {
        Some(Verb::Migrate)
    } else {
        None
    }
}

/// The option of a name, which stands after `--`.
pub(crate) fn setting_named(name: &[u8]) -> Option<Setting>
    ensures { result ≡ setting_named name.now }
{
    if name == b"workers".as_slice() {
        Some(Setting::Workers)
    } else if name == b"steps".as_slice() {
        Some(Setting::Steps)
    } else if name == b"depth".as_slice() {
        Some(Setting::Depth)
    } else if name == b"drop".as_slice() {
        Some(Setting::Sweep)
    } else if name == b"pick".as_slice() {
        Some(Setting::Pick)
    } else if name == b"seed".as_slice() {
        Some(Setting::Seed)
    } else {
        None
    }
}

/// Which binding a value of `--pick` names.
pub(crate) fn pick_named(word: &[u8]) -> Option<Picked>
    ensures { result ≡ pick_named word.now }
{
    if word == b"any".as_slice() {
        Some(Picked::Any)
    } else if word == b"least".as_slice() {
        Some(Picked::Least)
    } else {
        None
    }
}

/// Whether a command takes an option.
pub(crate) fn takes(verb: Verb, setting: Setting) -> bool
    ensures { result ≡ takes verb setting }
{
    match verb {
        Verb::Run => true,
        Verb::Check | Verb::Print | Verb::Pt | Verb::Migrate => false,
        Verb::Enabled => matches!(setting, Setting::Depth),
        Verb::Replay | Verb::Session | Verb::Counts | Verb::Moves => {
            matches!(setting, Setting::Steps | Setting::Depth)
        }
        Verb::Gen => matches!(setting, Setting::Workers | Setting::Sweep | Setting::Seed),
    }
}

/// The least number that an option may have.
pub(crate) fn least(setting: Setting) -> u32
    ensures { result ≡ least setting }
{
    match setting {
        Setting::Workers => 1,
        _ => 0,
    }
}

/// The greatest number that an option may have. `--pick` has none.
pub(crate) fn most(setting: Setting) -> u32
    ensures { result ≡ most setting }
{
    match setting {
        Setting::Workers => limits::MOST_WORKERS,
        Setting::Steps => limits::MOST_STEPS,
        Setting::Depth => limits::GREATEST_DEPTH,
        Setting::Sweep => limits::GREATEST_SWEEP,
        Setting::Pick => 0,
        Setting::Seed => GREATEST_SEED,
    }
}
