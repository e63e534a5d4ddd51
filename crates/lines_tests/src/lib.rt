// Lines and their fields as values, E lines, and a reader that is kept, tried at their edges.
#![tactic(auto)]

#[cfg(test)]
mod fields;
#[cfg(test)]
mod reading;
