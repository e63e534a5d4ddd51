// A number in a column, read and written.
use columns::{NoRoom, Unread};
use std::alloc::Global;
use std::process::Abort;
use std::test::Fail;

fn check_read(rt: &impl Abort, column: &str, answer: Result<i64, Unread>) {
    assert_eq!(rt; columns::read(column.as_bytes()), answer, "{column:?}");
}

#[test]
fn reads_a_number(rt: HostRuntime) {
    let cases = [
        ("0", 0),
        ("    0", 0),
        ("7", 7),
        ("-1", -1),
        ("  10", 10),
        ("-999", -999),
        ("9999", 9999),
        ("           5", 5),
        ("-99999999999", -99_999_999_999),
        ("999999999999", 999_999_999_999),
        ("9223372036854775807", i64::MAX),
        ("      9223372036854775807", i64::MAX),
        ("-9223372036854775808", i64::MIN),
        ("     -9223372036854775808", i64::MIN),
    ];
    for (column, number) in cases {
        check_read(&rt, column, Ok(number));
    }
}

#[test]
fn refuses_blanks_signs_and_extra_zeros(rt: HostRuntime) {
    let cases = [
        "",
        " ",
        "                         ",
        "-",
        "  -",
        "-  ",
        "--",
        "-0",
        "   -0",
        "00",
        "01",
        "-01",
        "000000000000000000000000000000",
        "012345678901234567890123456789",
    ];
    for column in cases {
        check_read(&rt, column, Err(Unread::NoNumber));
    }
}

#[test]
fn refuses_bytes_out_of_place(rt: HostRuntime) {
    let cases = [
        "+1",
        "1-",
        "- 1",
        "--1",
        "-1-",
        "1 ",
        "1 2",
        "a",
        "1a",
        "a1",
        "0x1",
        "1.5",
        "/",
        "1/",
        ":",
        "1:",
        "\t1",
        "1\n",
        "1\r",
        "\u{b2}",
        "123456789012345678901234567890a",
        "-123456789012345678901234567890a",
        "123456789012345678901234567890 ",
        "99999999999999999999-",
    ];
    for column in cases {
        check_read(&rt, column, Err(Unread::NoNumber));
    }
}

#[test]
fn reads_a_number_that_does_not_fit(rt: HostRuntime) {
    let cases = [
        "9223372036854775808",
        "-9223372036854775809",
        "      9223372036854775808",
        "     -9223372036854775809",
        "10000000000000000000",
        "18446744073709551615",
        "18446744073709551616",
        "18446744073709551617",
        "-18446744073709551616",
        "123456789012345678901234567890",
        "-123456789012345678901234567890",
        "  100000000000000000000000000000",
    ];
    for column in cases {
        check_read(&rt, column, Err(Unread::TooLarge));
    }
}

// The column is left as it was where the numeral has no room, else it is spaces and then the numeral.
fn check_write(
    rt: &impl Abort,
    heap: Global,
    number: i64,
    numeral: &str,
    length: usize,
) -> Result<(), Fail> {
    let mut column = vec![in heap; b'x'; length]?;
    let written = columns::write(number, &mut column);
    if length < numeral.len() {
        assert_eq!(rt; written, Err(NoRoom), "{numeral} in {length}");
        assert!(rt;
            column.iter().all(|byte| *byte == b'x'),
            "{numeral} in {length}"
        );
    } else {
        assert_eq!(rt; written, Ok(()), "{numeral} in {length}");
        assert_eq!(rt; columns::read(&column), Ok(number), "{numeral} in {length}");
        let padded = format!(in heap; "{numeral:>length$}")?;
        assert_eq!(rt;
            column.as_slice(),
            padded.as_bytes(),
            "{numeral} in {length}"
        );
    }
    Ok(())
}

#[test]
fn writes_into_columns_of_each_length(rt: HostRuntime) -> Result<(), Fail> {
    let cases = [
        (0, "0"),
        (9, "9"),
        (-1, "-1"),
        (10, "10"),
        (-10, "-10"),
        (99, "99"),
        (100, "100"),
        (999_999_999_999, "999999999999"),
        (-99_999_999_999, "-99999999999"),
        (1_000_000_000_000_000_000, "1000000000000000000"),
        (i64::MAX, "9223372036854775807"),
        (i64::MIN, "-9223372036854775808"),
    ];
    for (number, numeral) in cases {
        for length in 0..26 {
            check_write(&rt, rt.alloc(), number, numeral, length)?;
        }
    }
    Ok(())
}

#[test]
fn writes_into_a_part_of_a_text(rt: HostRuntime) {
    let cases = [
        (12, 2, 3, Ok(()), "xx 12xxx"),
        (-12, 2, 3, Ok(()), "xx-12xxx"),
        (0, 0, 1, Ok(()), "0xxxxxxx"),
        (7, 0, 8, Ok(()), "       7"),
        (7, 7, 1, Ok(()), "xxxxxxx7"),
        (-12, 2, 2, Err(NoRoom), "xxxxxxxx"),
        (0, 3, 0, Err(NoRoom), "xxxxxxxx"),
        (0, 8, 0, Err(NoRoom), "xxxxxxxx"),
        (0, 8, 1, Err(NoRoom), "xxxxxxxx"),
        (0, 9, 0, Err(NoRoom), "xxxxxxxx"),
        (0, 5, 4, Err(NoRoom), "xxxxxxxx"),
        (0, usize::MAX, 1, Err(NoRoom), "xxxxxxxx"),
        (0, 1, usize::MAX, Err(NoRoom), "xxxxxxxx"),
    ];
    for (number, start, width, answer, after) in cases {
        let mut text = [b'x'; 8];
        assert_eq!(rt;
            columns::write_at(number, &mut text, start, width),
            answer,
            "{number} at {start} in {width}"
        );
        assert_eq!(rt;
            text.as_slice(),
            after.as_bytes(),
            "{number} at {start} in {width}"
        );
    }
}
