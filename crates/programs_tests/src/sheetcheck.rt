// What `sheetcheck` answers.
use crate::streams::{Counting, Halting, with_room};
use programs::request::{Kind, Request};
use sheetreport::report::answer;
use std::alloc::{AllocError, Global};
use std::process::{Abort, ExitCode};
use std::test::Fail;

// A sheet of each kind; no two of its four numbers are equal.
const PLAIN: &str = "N   7   1
P   2 ADC
R   1   2          -3           5
R   2   3          -2           1
R   3   1                       1
C   1   3           4           4
C   1   2           6           6
";

const PLAIN_COUNTS: &str = "pins 7\nnames 1\nconstraints 3\ncommits 2\n";

const GUARDED: &str = "N  -5   2
P   2 ADC
P   1 
P   1 DAC
R   1   2          -3           0           5           1
C   1   3           4           0           4           0
C   1   2           5          -7           9           3
";

const GUARDED_COUNTS: &str = "pins -5\nnames 3\nconstraints 1\ncommits 2\n";

const USAGE: &str = "usage: sheetcheck [plain|guarded|--help]\n";

const HELP: &str = "sheetcheck: what a sheet of bounds holds, or its first fault

usage: sheetcheck [plain|guarded|--help]

The sheet is read from standard input. The argument says of which kind its times
are; where there is none, they are plain. Without a fault, four counts are printed.
With one, its E line is printed, standard error says what is wrong and on which
line, and the status is 1.

example: sheetcheck plain < examples/feeder.sheet
";

const RUN_PLAIN: Request = Request::Run(Kind::Plain);

// The streams, of which only a run reads, and the status of the answer.
fn check(
    rt: &impl Abort,
    heap: Global,
    request: Request,
    input: &[u8],
    output: &str,
    errors: &str,
) -> Result<(), Fail> {
    let mut source = input;
    let mut out = Vec::new(heap);
    let mut err = Vec::new(heap);
    let code = answer(request, &mut source, &mut out, &mut err, heap)?;
    let left = match request {
        Request::Run(_) => 0,
        Request::Help | Request::NotUnderstood => input.len(),
    };
    let status = if errors.is_empty() {
        ExitCode::SUCCESS
    } else {
        ExitCode::FAILURE
    };
    assert_eq!(rt; code, status, "{request:?}");
    assert_eq!(rt; source.len(), left, "what is left of the input");
    assert!(rt; out.as_slice() == output.as_bytes(), "{}", output);
    assert!(rt; err.as_slice() == errors.as_bytes(), "{}", errors);
    Ok(())
}

#[test]
fn each_cause_is_told(rt: HostRuntime) -> Result<(), Fail> {
    let heap = rt.alloc();
    for (text, line, words) in [
        (
            "N   1   1\nP   1 ",
            "E   3  31     2\n",
            "sheetcheck: line 2: the last line lacks its newline\n",
        ),
        (
            "N   1   1\nX\n",
            "E   2  32     2\n",
            "sheetcheck: line 2: unknown letter, or columns not as laid out\n",
        ),
        (
            "",
            "E   3  33     1\n",
            "sheetcheck: line 1: line out of turn, or no N line\n",
        ),
        (
            "N   1   3\n",
            "E   3  34     1\n",
            "sheetcheck: line 1: the count of numbers is not the kind's\n",
        ),
        (
            "N   1   1\nP  01 \n",
            "E   1  35     2\n",
            "sheetcheck: line 2: a field is not a number\n",
        ),
    ] {
        check(&rt, heap, RUN_PLAIN, text.as_bytes(), line, words)?;
    }
    Ok(())
}

// A sheet of so many bytes, most of which are one name.
fn long_sheet(heap: Global, bytes: usize) -> Result<Vec<u8>, AllocError> {
    let mut text = Vec::new(heap);
    text.extend_from_slice(b"N   1   1\nP   1 ")?;
    for _ in 17..bytes {
        text.push(b'x')?;
    }
    text.push(b'\n')?;
    Ok(text)
}

// The cause that needs a long text.
#[test]
fn a_sheet_has_a_limit(rt: HostRuntime) -> Result<(), Fail> {
    let heap = rt.alloc();
    let counts = "pins 1\nnames 1\nconstraints 0\ncommits 0\n";
    let line = "E   3  30     0\n";
    let words = "sheetcheck: line 0: the text has more than 32768 bytes\n";
    for (bytes, output, errors) in [
        (32_768, counts, ""),
        (32_769, line, words),
        (40_000, line, words),
    ] {
        let text = long_sheet(heap, bytes)?;
        assert_eq!(rt; text.len(), bytes);
        check(&rt, heap, RUN_PLAIN, text.as_slice(), output, errors)?;
    }
    Ok(())
}

#[test]
fn each_kind_is_run(rt: HostRuntime) -> Result<(), Fail> {
    let heap = rt.alloc();
    let line = "E   3  34     1\n";
    let words = "sheetcheck: line 1: the count of numbers is not the kind's\n";
    for (kind, text, output, errors) in [
        (Kind::Plain, PLAIN, PLAIN_COUNTS, ""),
        (Kind::Guarded, GUARDED, GUARDED_COUNTS, ""),
        (Kind::Guarded, PLAIN, line, words),
        (Kind::Plain, GUARDED, line, words),
    ] {
        check(
            &rt,
            heap,
            Request::Run(kind),
            text.as_bytes(),
            output,
            errors,
        )?;
    }
    Ok(())
}

#[test]
fn nothing_is_run_for_help_or_other_words(rt: HostRuntime) -> Result<(), Fail> {
    let heap = rt.alloc();
    check(&rt, heap, Request::Help, PLAIN.as_bytes(), HELP, "")?;
    check(
        &rt,
        heap,
        Request::NotUnderstood,
        PLAIN.as_bytes(),
        "",
        USAGE,
    )
}

#[test]
fn an_interrupted_source_is_read_on(rt: HostRuntime) -> Result<(), Fail> {
    let heap = rt.alloc();
    let mut source = Halting {
        rest: PLAIN.as_bytes(),
        halts: false,
    };
    let mut out = Vec::new(heap);
    let mut err = Vec::new(heap);
    let code = answer(RUN_PLAIN, &mut source, &mut out, &mut err, heap)?;
    assert_eq!(rt; code, ExitCode::SUCCESS);
    assert_eq!(rt; source.rest.len(), 0);
    assert!(rt; out.as_slice() == PLAIN_COUNTS.as_bytes());
    assert_eq!(rt; err.len(), 0);
    Ok(())
}

// One byte of room less than the answer needs, on either stream.
#[test]
fn what_cannot_be_written_is_an_error(rt: HostRuntime) -> Result<(), Fail> {
    let heap = rt.alloc();
    for (request, text, output, errors, fits) in [
        (RUN_PLAIN, PLAIN, 39, 0, true),
        (RUN_PLAIN, PLAIN, 38, 0, false),
        (RUN_PLAIN, "", 16, 51, true),
        (RUN_PLAIN, "", 15, 51, false),
        (RUN_PLAIN, "", 16, 50, false),
        (Request::Help, "", 20, 0, false),
        (Request::NotUnderstood, "", 0, 41, true),
        (Request::NotUnderstood, "", 0, 40, false),
    ] {
        let mut source = text.as_bytes();
        let mut out = with_room(heap, output);
        let mut err = with_room(heap, errors);
        let ended = answer(request, &mut source, &mut out, &mut err, heap);
        assert_eq!(rt; ended.is_ok(), fits, "{} {}", output, errors);
    }
    Ok(())
}

// What others write at the same time cannot come between the parts of a summary, or of the words: each is one write.
#[test]
fn what_is_told_is_written_whole(rt: HostRuntime) -> Result<(), Fail> {
    let heap = rt.alloc();
    for (request, text, output, errors) in [
        (RUN_PLAIN, PLAIN, 1, 0),
        (RUN_PLAIN, "", 2, 1),
        (Request::Help, "", 1, 0),
        (Request::NotUnderstood, "", 0, 1),
    ] {
        let mut source = text.as_bytes();
        let mut out = Counting::default();
        let mut err = Counting::default();
        answer(request, &mut source, &mut out, &mut err, heap)?;
        assert_eq!(rt; out.writes, output, "{request:?}");
        assert_eq!(rt; err.writes, errors, "{request:?}");
    }
    Ok(())
}
