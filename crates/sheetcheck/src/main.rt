// Reads a sheet of bounds from standard input, and reports what it holds or its first fault.
// `sheetreport` says what is answered. What no contract can say stands here: that the words are the first two after
// the program's name, and that the streams are the system's.
#![tactic(auto)]

use programs::request::asked;
use sheetreport::report::answer;
use std::env;
use std::process::ExitCode;

fn main(rt: HostRuntime) -> anyhow::Result<ExitCode> {
    // Two words are not understood already, so no more are kept.
    let words: Vec<String> = env::args(&rt)?.skip(1).take(2).collect(rt.alloc())?;
    answer(
        asked(words.as_slice()),
        &mut rt.stdin(),
        &mut rt.stdout(),
        &mut rt.stderr(),
        rt.alloc(),
    )
}
