// One line of a sheet: its letter, its columns, its turn and its numbers, or the first cause by which it is none.
// Nothing here knows a text of many lines, and what the numbers mean is for others.
#![tactic(auto)]

pub mod cause;
pub mod checks;
pub mod field;
mod layout;
pub mod line;
