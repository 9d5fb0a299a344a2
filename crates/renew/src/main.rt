//! The program `renew`: a simulator of reference nets. It hands its words and the standard streams
//! to the top call, and ends with the status that this answers.
#![tactic(auto)]

mod ending;
mod streams;
mod words;

use crate::ending::ending;
use crate::streams::standard;
use crate::words::words_of;
use std::process::ExitCode;

fn main(rt: HostRuntime) -> ExitCode {
    let words = words_of(&rt);
    let mut streams = standard(&rt);
    ExitCode::from(ending(&rt, rt.alloc(), &words, &mut streams))
}
