// Event frames that come in, and frames that go out.
#![tactic(auto)]

pub mod events;
pub mod faults;
pub mod kinds;
pub mod memory;
pub mod numbers;
pub mod reader;
pub mod sink;
pub mod sinks;
pub mod theorems;
pub mod writer;
