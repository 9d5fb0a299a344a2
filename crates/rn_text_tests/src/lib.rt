//! Tests of what values, tokens and expressions answer to a caller other than the program.
#![tactic(auto)]

#[cfg(test)]
mod inscript;
#[cfg(test)]
mod notation;
#[cfg(test)]
mod value;
