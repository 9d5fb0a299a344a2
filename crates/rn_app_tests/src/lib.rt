//! Tests of what the top call's rows can't show.
#![tactic(auto)]

#[cfg(test)]
mod calling;
#[cfg(test)]
mod lines;
#[cfg(test)]
mod meeting;
#[cfg(test)]
mod reads;
#[cfg(test)]
mod record;
#[cfg(test)]
mod workers;
