// What programs share, and what each answers, on values and on streams in memory.
#![tactic(auto)]

#[cfg(test)]
mod shared;
#[cfg(test)]
mod sheetcheck;
#[cfg(test)]
mod streams;
