// What `sheetcheck` answers, over any input and outputs.
// No scheduler is linked here: the sheet is read, and no call is made.
#![tactic(auto)]

pub mod report;
