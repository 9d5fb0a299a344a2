//! The options that are given so far.
ghost use Rattle.std.specs.Prelude.{◌≡◌};
ghost use Rattle.rn_words.specs.Choices.{is_given, goes_with, fits, with_given, with_number_given};
ghost use Rattle.rn_words.specs.Choices.{nothing, options_of, run_of, gen_of, command_of};

use crate::command::Command;
use crate::table::{Picked, Setting, Verb};
use rn_model::Options;

/// The workers of a run that names none.
const WORKERS: u32 = 4;

/// The step limit of a run that names none.
const STEPS: u32 = 1_000;

/// The step limit of a run of the workload text.
const GEN_STEPS: u32 = 200_000;

/// The depth of a search that names none.
const DEPTH: u32 = 4;

/// After how many firings of its own a worker drops instances, where a run names none.
const SWEEP_EVERY: u32 = 64;

/// A value of an option.
#[derive(Clone, Copy, Debug)]
pub(crate) enum OptionValue {
    Number(u32),
    Picks(Picked),
}

/// The value of each option that is given.
#[derive(Clone, Copy, Debug)]
pub(crate) struct Chosen {
    pub(crate) workers: Option<u32>,
    pub(crate) steps: Option<u32>,
    pub(crate) depth: Option<u32>,
    pub(crate) sweep: Option<u32>,
    pub(crate) pick: Option<Picked>,
    pub(crate) seed: Option<u32>,
}

impl Chosen {
    /// No option is given.
    pub(crate) fn nothing() -> Chosen
        ensures { result ≡ nothing }
    {
        Chosen {
            workers: None,
            steps: None,
            depth: None,
            sweep: None,
            pick: None,
            seed: None,
        }
    }

    /// Whether an option is given.
    pub(crate) fn has(&self, setting: Setting) -> bool
        ensures { result ≡ is_given self.now setting }
    {
        match setting {
            Setting::Workers => self.workers.is_some(),
            Setting::Steps => self.steps.is_some(),
            Setting::Depth => self.depth.is_some(),
            Setting::Sweep => self.sweep.is_some(),
            Setting::Pick => self.pick.is_some(),
            Setting::Seed => self.seed.is_some(),
        }
    }

    /// Whether an option may be given beside the others: a seed can't stand beside `--pick least`.
    pub(crate) fn goes_with(&self, setting: Setting) -> bool
        ensures { result ≡ goes_with self.now setting }
    {
        match setting {
            Setting::Seed => !matches!(self.pick, Some(Picked::Least)),
            _ => true,
        }
    }

    /// Whether a value may be given beside the others: `least` can't stand beside a seed.
    pub(crate) fn fits(&self, value: OptionValue) -> bool
        ensures { result ≡ fits self.now value }
    {
        match value {
            OptionValue::Picks(Picked::Least) => self.seed.is_none(),
            _ => true,
        }
    }

    /// The same with one more option given.
    pub(crate) fn with(self, setting: Setting, value: OptionValue) -> Chosen
        ensures { result ≡ with_given self setting value }
    {
        match value {
            OptionValue::Picks(picked) => Chosen {
                pick: Some(picked),
                ..self
            },
            OptionValue::Number(number) => self.with_number(setting, number),
        }
    }

    // The same with one more option given, whose value is a number.
    fn with_number(self, setting: Setting, number: u32) -> Chosen
        ensures { result ≡ with_number_given self setting number }
    {
        match setting {
            Setting::Workers => Chosen {
                workers: Some(number),
                ..self
            },
            Setting::Steps => Chosen {
                steps: Some(number),
                ..self
            },
            Setting::Depth => Chosen {
                depth: Some(number),
                ..self
            },
            Setting::Sweep => Chosen {
                sweep: Some(number),
                ..self
            },
            Setting::Seed => Chosen {
                seed: Some(number),
                ..self
            },
            Setting::Pick => self,
        }
    }
}

// The options, with this limit of steps where none is given.
fn options_of(steps: u32, chosen: Chosen) -> Options
    ensures { result ≡ options_of steps chosen }
{
    Options {
        workers: chosen.workers.unwrap_or(WORKERS),
        steps: chosen.steps.unwrap_or(steps),
        depth: chosen.depth.unwrap_or(DEPTH),
        sweep_every: chosen.sweep.unwrap_or(SWEEP_EVERY),
    }
}

// The command `run` of these options.
fn run_of(options: Options, pick: Option<Picked>, seed: Option<u32>) -> Command
    ensures { result ≡ run_of options pick seed }
{
    match (pick, seed) {
        (Some(Picked::Least), _) => Command::RunLeast(options),
        (_, Some(seed)) => Command::RunSeeded(options, seed),
        (_, None) => Command::Run(options),
    }
}

// The command `gen` of these options.
fn gen_of(copies: u32, options: Options, seed: Option<u32>) -> Command
    ensures { result ≡ gen_of copies options seed }
{
    match seed {
        Some(seed) => Command::GenSeeded(copies, options, seed),
        None => Command::Gen(copies, options),
    }
}

/// The command of its word, the number after it (for `gen` alone), and the options.
pub(crate) fn command_of(verb: Verb, copies: u32, chosen: Chosen) -> Command
    ensures { result ≡ command_of verb copies chosen }
{
    match verb {
        Verb::Run => run_of(options_of(STEPS, chosen), chosen.pick, chosen.seed),
        Verb::Check => Command::Check,
        Verb::Print => Command::Print,
        Verb::Enabled => Command::Enabled(chosen.depth.unwrap_or(DEPTH)),
        Verb::Replay => Command::Replay(options_of(STEPS, chosen)),
        Verb::Gen => gen_of(copies, options_of(GEN_STEPS, chosen), chosen.seed),
        Verb::Session => Command::Session(options_of(STEPS, chosen)),
        Verb::Counts => Command::Counts(options_of(STEPS, chosen)),
        Verb::Moves => Command::Moves(options_of(STEPS, chosen)),
        Verb::Pt => Command::Pt,
        Verb::Migrate => Command::Migrate,
    }
}
