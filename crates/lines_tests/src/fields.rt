// Pins, counts and ends by their columns.
use kinds::guarded::Guarded;
use kinds::plain::Plain;
use lines::cause::TextCause;
use lines::field::{end, pin};

#[test]
fn reads_pins(rt: HostRuntime) {
    let cases = [
        ("   1", Ok(1)),
        ("   0", Ok(0)),
        ("  64", Ok(64)),
        ("  -5", Ok(-5)),
        ("9999", Ok(9999)),
        ("-999", Ok(-999)),
        ("", Err(TextCause::Field)),
        ("    ", Err(TextCause::Field)),
        ("  1", Err(TextCause::Field)),
        ("    1", Err(TextCause::Field)),
        ("1   ", Err(TextCause::Field)),
        ("  01", Err(TextCause::Field)),
        ("  -0", Err(TextCause::Field)),
        ("  +1", Err(TextCause::Field)),
        ("1 1 ", Err(TextCause::Field)),
    ];
    for (columns, number) in cases {
        assert_eq!(rt; pin(columns.as_bytes()), number, "{columns:?}");
    }
}

fn picoseconds(end: Option<Plain>) -> Option<i64> {
    Some(end?.picoseconds)
}

#[test]
fn reads_plain_ends(rt: HostRuntime) {
    let cases = [
        ("            ", Ok(None)),
        ("           5", Ok(Some(5))),
        ("          -5", Ok(Some(-5))),
        ("           0", Ok(Some(0))),
        ("-99999999999", Ok(Some(-99_999_999_999))),
        ("999999999999", Ok(Some(999_999_999_999))),
        ("", Err(TextCause::Field)),
        ("           ", Err(TextCause::Field)),
        ("             ", Err(TextCause::Field)),
        ("          5", Err(TextCause::Field)),
        ("            5", Err(TextCause::Field)),
        ("          5 ", Err(TextCause::Field)),
        ("          -0", Err(TextCause::Field)),
        ("                        ", Err(TextCause::Field)),
    ];
    for (columns, number) in cases {
        let read = end::<Plain>(columns.as_bytes()).map(picoseconds);
        assert_eq!(rt; read, number, "{columns:?}");
    }
}

fn both_numbers(end: Option<Guarded>) -> Option<(i64, i64)> {
    let time = end?;
    Some((time.picoseconds, time.guard))
}

#[test]
fn reads_guarded_ends(rt: HostRuntime) {
    let cases = [
        ("                        ", Ok(None)),
        ("           5          -1", Ok(Some((5, -1)))),
        ("           0           0", Ok(Some((0, 0)))),
        (
            "-99999999999999999999999",
            Ok(Some((-99_999_999_999, 999_999_999_999))),
        ),
        ("           5            ", Err(TextCause::Field)),
        ("                       5", Err(TextCause::Field)),
        ("           5          -0", Err(TextCause::Field)),
        ("            ", Err(TextCause::Field)),
        ("           5", Err(TextCause::Field)),
        ("           5          -1 ", Err(TextCause::Field)),
    ];
    for (columns, numbers) in cases {
        let read = end::<Guarded>(columns.as_bytes()).map(both_numbers);
        assert_eq!(rt; read, numbers, "{columns:?}");
    }
}
