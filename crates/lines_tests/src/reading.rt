// A reader that is kept reads again from where it stood; an E line is made of any layer, cause and line.
use columns::NoRoom;
use kinds::plain::Plain;
use lines::cause::Layer;
use lines::line::Letter;
use reader::fault::{Fault, write_fault};
use reader::reader::Reader;
use std::test::Fail;

const SHEET: &str =
    "N   3   1\nP   2 ADC\nR   1   2          -3           5\nC   1   3           4           4\n";

// The number and the letter of the next line.
fn next(reader: &mut Reader<Plain>) -> Result<Option<(usize, Letter)>, Fault> {
    let Some(line) = reader.next_line()? else {
        return Ok(None);
    };
    Ok(Some((line.number(), line.letter())))
}

#[test]
fn a_kept_reader_reads_again(rt: HostRuntime) -> Result<(), Fail> {
    let mut reader = Reader::<Plain>::new(SHEET.as_bytes());
    assert_eq!(rt; next(&mut reader)?, Some((1, Letter::N)));
    assert_eq!(rt; next(&mut reader)?, Some((2, Letter::P)));
    let mut kept = reader;
    assert_eq!(rt; next(&mut reader)?, Some((3, Letter::R)));
    assert_eq!(rt; next(&mut reader)?, Some((4, Letter::C)));
    assert_eq!(rt; next(&mut reader)?, None);
    assert_eq!(rt; next(&mut reader)?, None);
    assert_eq!(rt; next(&mut kept)?, Some((3, Letter::R)));
    assert_eq!(rt; next(&mut kept)?, Some((4, Letter::C)));
    assert_eq!(rt; next(&mut kept)?, None);
    Ok(())
}

#[test]
fn an_e_line_shows_its_numbers(rt: HostRuntime) -> Result<(), Fail> {
    let cases = [
        (Layer::Field, 35, 1, Ok(()), "E   1  35     1"),
        (Layer::Line, 32, 999_999, Ok(()), "E   2  32999999"),
        (Layer::Sheet, 30, 0, Ok(()), "E   3  30     0"),
        (Layer::Call, 19, 6, Ok(()), "E   4  19     6"),
        (Layer::Call, 255, 42, Ok(()), "E   4 255    42"),
        (Layer::Call, 19, 1_000_000, Err(NoRoom), "xxxxxxxxxxxxxxx"),
        (Layer::Call, 19, 6, Err(NoRoom), "xxxxxxxxxxxxxx"),
        (Layer::Call, 19, 6, Err(NoRoom), "xxxxxxxxxxxxxxxx"),
    ];
    for (layer, cause, line, answer, after) in cases {
        let mut bytes = vec![in rt.alloc(); b'x'; after.len()]?;
        assert_eq!(rt;
            write_fault(layer, cause, line, &mut bytes),
            answer,
            "{after:?}"
        );
        assert_eq!(rt; bytes.as_slice(), after.as_bytes());
    }
    Ok(())
}
