// The decisions of a cache, over any store.
#![tactic(auto)]

pub mod answers;
pub mod cache;
pub mod links;
pub mod requests;
pub mod room;
pub mod rows;
pub mod storing;
pub mod types;
