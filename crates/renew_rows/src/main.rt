//! A driver of rows: it reads rows from standard input, calls the top call of the program for
//! each, over a source and sinks in memory, and reports which don't come to what they say.
#![tactic(auto)]

mod calling;
mod judging;
mod lines;
mod numbers;
mod pieces;
mod reading;
mod row;
mod rows;
mod saying;
mod spelling;
mod tally;
mod telling;

use crate::rows::judge_input;
use rn_outside::{StdSink, StdSource};
use std::process::ExitCode;

fn main(rt: HostRuntime) -> ExitCode {
    let mut input = StdSource::new(rt.stdin());
    let mut out = StdSink::new(rt.stdout());
    let mut err = StdSink::new(rt.stderr());
    ExitCode::from(judge_input(&rt, rt.alloc(), &mut input, &mut out, &mut err))
}
