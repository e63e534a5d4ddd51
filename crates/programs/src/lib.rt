// What all programs share: what their arguments ask for, their input, and how an answer is delivered.
#![tactic(auto)]

pub mod answer;
pub mod input;
pub mod request;
