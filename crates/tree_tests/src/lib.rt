//! Tests of the rule of a tree: what it accepts, and each refusal.

#![tactic(auto)]

#[cfg(test)]
mod accepts;
#[cfg(test)]
mod refuses;
