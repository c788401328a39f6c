// A cache by value with its store: the calls of a cache, for whoever has any request and any answer.
#![tactic(auto)]

pub mod node;
pub mod types;
