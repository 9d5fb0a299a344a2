//! Tests of library calls that no command shows.
#![tactic(auto)]

#[cfg(test)]
mod capacities;
#[cfg(test)]
mod desks;
#[cfg(test)]
mod lists;
#[cfg(test)]
mod searches;
#[cfg(test)]
mod streams;
#[cfg(test)]
mod values;
