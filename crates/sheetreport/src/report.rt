// The whole answer: what a sheet of bounds holds or its first fault, the help, or how to call the program.
// What is told is stated for streams whose bytes are known.
ghost use Rattle.std.specs.Prelude.{◌≡◌, ◌<◌, ◌↔◌, Ok, IfOk, IsErr, IsOk, OnOk};
ghost use Rattle.std.specs.Io.KnownBytes.{Appends, IsAtEnd};
ghost use Rattle.std.specs.Process.{exit_status};
ghost use Rattle.programs.specs.Inputs.{Left};
ghost use Rattle.reader.specs.Faults.{TextFaultLine};
ghost use Rattle.reader.specs.Summaries.{Surveyed};
ghost use Rattle.reader.specs.Texts.{limit};
ghost use Rattle.sheetreport.specs.Reports.{numbers, Prints, said, status, SurveyedIn, Ran, help_text, usage, Answers};

use columns::NoRoom;
use kinds::guarded::Guarded;
use kinds::plain::Plain;
use programs::input::read_limited;
use programs::request::{Kind, Request};
use reader::fault::{Fault, WIDTH};
use reader::reader::LIMIT;
use reader::summary::{Summary, survey};
use std::alloc::Global;
use std::io;
use std::io::{Read, Write};
use std::process::ExitCode;

const HELP: &str = "sheetcheck: what a sheet of bounds holds, or its first fault

usage: sheetcheck [plain|guarded|--help]

The sheet is read from standard input. The argument says of which kind its times
are; where there is none, they are plain. Without a fault, four counts are printed.
With one, its E line is printed, standard error says what is wrong and on which
line, and the status is 1.

example: sheetcheck plain < examples/feeder.sheet
";

// A match: the kind chooses a type, which no closure can.
fn surveyed(kind: Kind, text: &[u8]) -> Result<Summary, Fault>
    ensures { Surveyed (numbers kind) text.now result }
{
    match kind {
        Kind::Plain => survey::<Plain>(text),
        Kind::Guarded => survey::<Guarded>(text),
    }
}

// The E line, without its newline.
fn fault_line(fault: &Fault) -> Result<[u8; WIDTH], NoRoom>
    ensures line { IfOk result (TextFaultLine fault.now) }
    ensures no_room { IsErr result → 999_999 < fault.now.line }
{
    let mut line = [b' '; WIDTH];
    fault.write(&mut line)?;
    Ok(line)
}

// Made whole first, so that one write takes it: a stream that has no buffer would take it piece by piece.
fn tell_summary<O: Write>(summary: &Summary, output: &mut O, heap: Global) -> anyhow::Result<()>
    ensures prints { OnOk result (Prints (Ok summary.now) (O.contents output.old) (O.contents output.new)) }
{
    let text = format!(in heap; "{summary}\n")?;
    output.write_all(text.as_bytes())?;
    Ok(())
}

// The E line, and in words what is wrong and where. What cannot be told is an error.
fn tell_fault<O: Write, E: Write>(
    fault: &Fault,
    output: &mut O,
    errors: &mut E,
    heap: Global,
) -> anyhow::Result<()>
    ensures prints { OnOk result (Prints (Err fault.now) (O.contents output.old) (O.contents output.new)) }
    ensures says { OnOk result (Appends (E.contents errors.old) (E.contents errors.new) (said (Err fault.now))) }
{
    let line = fault_line(fault)?;
    // Whole, as a summary is, and before a byte is written.
    let words = format!(in heap; "sheetcheck: {fault}\n")?;
    output.write_all(&line)?;
    output.write_all(b"\n")?;
    errors.write_all(words.as_bytes())?;
    Ok(())
}

fn status(sheet: &Result<Summary, Fault>) -> ExitCode
    ensures { exit_status result ≡ status sheet.now }
{
    match sheet {
        Ok(_) => ExitCode::SUCCESS,
        Err(_) => ExitCode::FAILURE,
    }
}

// The status once the sheet is told; what could not be told stays an error, and has no status.
fn status_after(
    told: anyhow::Result<()>,
    sheet: &Result<Summary, Fault>,
) -> anyhow::Result<ExitCode>
    ensures told { IsOk result ↔ IsOk told }
    ensures status { IfOk result (λ code. exit_status code ≡ status sheet.now) }
{
    told?;
    Ok(status(sheet))
}

// Tells the summary, or the fault. Two streams and no struct of them: each clause would name them through it.
fn report<O: Write, E: Write>(
    sheet: &Result<Summary, Fault>,
    output: &mut O,
    errors: &mut E,
    heap: Global,
) -> anyhow::Result<ExitCode>
    ensures status { IfOk result (λ code. exit_status code ≡ status sheet.now) }
    ensures prints { OnOk result (Prints sheet.now (O.contents output.old) (O.contents output.new)) }
    ensures says { OnOk result (Appends (E.contents errors.old) (E.contents errors.new) (said sheet.now)) }
{
    let told = match sheet {
        Ok(summary) => tell_summary(summary, output, heap),
        Err(fault) => tell_fault(fault, output, errors, heap),
    };
    status_after(told, sheet)
}

// How many bytes a sheet may have.
fn most_bytes() -> u32
    ensures { result ≡ limit }
{
    LIMIT as u32
}

// What is told of the text that was kept is told of the whole input.
fn read_sheet<R: Read>(
    kind: Kind,
    source: &mut R,
    heap: Global,
) -> io::Result<Result<Summary, Fault>>
    ensures sheet { IfOk result (λ sheet. SurveyedIn kind (R.remaining source.old) sheet) }
    ensures at_end { OnOk result (IsAtEnd (R.remaining source.new)) }
{
    let text = read_limited(source, most_bytes(), heap)?;
    Ok(surveyed(kind, text.as_slice()))
}

// Reads the sheet to its end, and reports it.
#[tactic(auto, using(crate::proofs::Cuts::ran))]
fn run<R: Read, O: Write, E: Write>(
    kind: Kind,
    source: &mut R,
    output: &mut O,
    errors: &mut E,
    heap: Global,
) -> anyhow::Result<ExitCode>
    ensures ran { IfOk result (λ code. Ran kind (R.remaining source.old) code
        (O.contents output.old) (O.contents output.new) (E.contents errors.old) (E.contents errors.new)) }
    ensures at_end { OnOk result (IsAtEnd (R.remaining source.new)) }
{
    let sheet = read_sheet(kind, source, heap)?;
    report(&sheet, output, errors, heap)
}

fn help<O: Write>(output: &mut O) -> anyhow::Result<ExitCode>
    ensures status { IfOk result (λ code. exit_status code ≡ 0) }
    ensures prints { OnOk result (Appends (O.contents output.old) (O.contents output.new) help_text) }
{
    output.write_all(HELP.as_bytes())?;
    Ok(ExitCode::SUCCESS)
}

fn decline<E: Write>(errors: &mut E) -> anyhow::Result<ExitCode>
    ensures status { IfOk result (λ code. exit_status code ≡ 1) }
    ensures says { OnOk result (Appends (E.contents errors.old) (E.contents errors.new) usage) }
{
    writeln!(errors, "usage: sheetcheck [plain|guarded|--help]")?;
    Ok(ExitCode::FAILURE)
}

// Only a run reads its input. It is told at once and not made a value first: `deliver` ends a failed answer in an error,
// which `main` would print beside the words.
pub fn answer<R: Read, O: Write, E: Write>(
    request: Request,
    source: &mut R,
    output: &mut O,
    errors: &mut E,
    heap: Global,
) -> anyhow::Result<ExitCode>
    ensures answers { IfOk result (λ code. Answers request (R.remaining source.old) code
        (O.contents output.old) (O.contents output.new) (E.contents errors.old) (E.contents errors.new)) }
    ensures left { OnOk result (Left request (R.remaining source.old) (R.remaining source.new)) }
{
    match request {
        Request::Run(kind) => run(kind, source, output, errors, heap),
        Request::Help => help(output),
        Request::NotUnderstood => decline(errors),
    }
}
