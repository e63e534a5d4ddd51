// Kinds of time.
#![tactic(auto)]

mod field;
pub mod guarded;
mod number;
pub mod plain;
pub mod time;
