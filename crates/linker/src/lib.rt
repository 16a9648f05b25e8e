//! Where the references of a set of grammars lead, which contexts have the prototype, and which are flagged: what these are,
//! and the law that the order of adding decides none of it but between grammars of equal scope or equal name.

#![tactic(auto)]

mod law;

pub use law::law_of_histories;
