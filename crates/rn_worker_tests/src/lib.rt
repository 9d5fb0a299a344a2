//! Tests of workers.
#![tactic(auto)]

#[cfg(test)]
mod least;
#[cfg(test)]
mod nets;
#[cfg(test)]
mod runs;
#[cfg(test)]
mod turns;
