//! Numbers the groups of a pattern.

#![tactic(auto)]

mod captures;

pub use captures::get_consuming_capture_indexes;
