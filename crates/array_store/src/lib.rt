// A small store by value: 64 places in a fixed array, with texts of at most 255 bytes.
#![tactic(auto)]

pub mod array;
mod entry;
mod places;
mod short;
mod stored;
pub mod types;
