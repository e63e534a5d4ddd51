// The kinds of time, tried at the edges of what they take.
#![tactic(auto)]

#[cfg(test)]
mod checks;
#[cfg(test)]
mod guarded;
#[cfg(test)]
mod offset;
#[cfg(test)]
mod plain;
