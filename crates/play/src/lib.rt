// Plays an origin, clients and slow connections through a cache, and judges every answer by what the origin had.
#![tactic(auto)]

pub mod game;
pub mod history;
pub mod judge;
pub mod names;
pub mod random;
pub mod script;
pub mod tables;
pub mod texts;
pub mod types;
pub mod words;
