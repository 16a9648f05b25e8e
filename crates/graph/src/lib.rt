//! Marks the places of a graph that are reached from the places that are marked at the start.

#![tactic(auto)]

mod by_place;
mod chains;
mod frontier;
mod graph;
mod marking;
#[cfg(test)]
mod tests;
mod workspace;

pub use graph::Graph;
pub use marking::{Refusal, mark};
pub use workspace::Workspace;
