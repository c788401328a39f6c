// What a cache asks of a store, and the list of slots that a store stands for.
#![tactic(auto)]

pub mod store;
pub mod types;
