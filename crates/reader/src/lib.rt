// Sheet text, line by line: what a sheet's lines hold, or its first fault.
// Nothing here knows a schedule or makes a call: what the numbers mean is for others.
#![tactic(auto)]

pub mod fault;
pub mod reader;
pub mod summary;
