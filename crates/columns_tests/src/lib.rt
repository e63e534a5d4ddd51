// Numbers in columns, tried at the edges of what they take.
#![tactic(auto)]

#[cfg(test)]
mod numbers;
