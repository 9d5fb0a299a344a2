//! Tests of kept lists of bindings.
#![tactic(auto)]

#[cfg(test)]
mod anew;
#[cfg(test)]
mod following;
#[cfg(test)]
mod nets;
#[cfg(test)]
mod runs;
#[cfg(test)]
mod touched;
