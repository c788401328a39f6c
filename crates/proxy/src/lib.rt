// The proxy: events in, frames out.
#![tactic(auto)]

pub mod batch;
pub mod marks;
pub mod proxy;
pub mod refusal;
pub mod state;
pub mod steps;
pub mod theorems;
