// Runs the sheet reader on the cases of standard input, and prints a report of each.
// A case is a line: a kind of time, a space, and a sheet's text with escapes.
#![tactic(auto)]

mod escapes;

use anyhow::Context;
use kinds::guarded::Guarded;
use kinds::plain::Plain;
use kinds::time::Written;
use lines::cause::TextCause;
use offsets::Offset;
use reader::fault::{Fault, WIDTH};
use reader::summary::{Summary, survey};
use std::io;
use std::io::{BufRead, BufReader, Write};

// A match: the word chooses a type, which no closure can.
fn survey_as(kind: &str, text: &[u8]) -> Option<Result<Summary, Fault>> {
    match kind {
        "plain" => Some(survey::<Plain>(text)),
        "guarded" => Some(survey::<Guarded>(text)),
        "offset" => Some(survey::<Offset>(text)),
        _ => None,
    }
}

// A line of its own form, so that a case is a line.
fn print_summary(rt: &HostRuntime, summary: &Summary) -> io::Result<()> {
    let Summary {
        pins,
        names,
        constraints,
        commits,
    } = summary;
    println!(rt; "pins {pins} names {names} constraints {constraints} commits {commits}")
}

// Written here too: this very call is tried.
fn print_fault(rt: &HostRuntime, fault: &Fault) -> anyhow::Result<()> {
    let mut line = [0; WIDTH];
    fault.write(&mut line)?;
    rt.stdout().write_all(&line)?;
    rt.stdout().write_all(b"\n")?;
    Ok(())
}

fn run_case(rt: &HostRuntime, case: &str) -> anyhow::Result<()> {
    let (kind, text) = case.split_once(' ').context("a case has no space")?;
    let bytes = escapes::decoded(rt.alloc(), text.as_bytes())?;
    match survey_as(kind, bytes.as_slice()).context("a case has no kind")? {
        Ok(summary) => Ok(print_summary(rt, &summary)?),
        Err(fault) => print_fault(rt, &fault),
    }
}

// A fault that has no room is not told, and the bytes stay.
fn print_refusals(rt: &HostRuntime) -> anyhow::Result<()> {
    for (line, width) in [(1_000_000, 15), (usize::MAX, 15), (1, 14), (1, 16)] {
        let cause = TextCause::Turn;
        let mut columns = [b'x'; 16];
        let bytes = columns
            .get_mut(..width)
            .context("no place has so many columns")?;
        let refused = Fault { cause, line }.write(bytes).is_err();
        rt.stdout().write_all(bytes)?;
        println!(rt; " refused {refused}")?;
    }
    Ok(())
}

fn main(rt: HostRuntime) -> anyhow::Result<()> {
    print_refusals(&rt)?;
    for case in BufReader::new(rt.alloc(), rt.stdin())?.lines(rt.alloc()) {
        run_case(&rt, case?.as_str())?;
    }
    Ok(())
}
