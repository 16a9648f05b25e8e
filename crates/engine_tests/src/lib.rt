//! Tests of the engines, and of what is done with any engine.

#![tactic(auto)]

#[cfg(test)]
mod bracket;
#[cfg(test)]
mod counting;
#[cfg(test)]
mod record;
