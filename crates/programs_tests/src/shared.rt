// What all programs share: words, input with a limit, and delivery.
use crate::streams::{Halting, with_room};
use programs::answer::{Answer, deliver};
use programs::input::{read_for, read_limited};
use programs::request::{Kind, Request, asked};
use std::alloc::{AllocError, Global};
use std::test::Fail;

const LIMIT: u32 = 32_768;

fn asked_of(heap: Global, words: &[&str]) -> Result<Request, AllocError> {
    let all: Vec<String> = words
        .iter()
        .map(|word| String::from_str(heap, word))
        .try_collect(heap)?;
    Ok(asked(all.as_slice()))
}

#[test]
fn words_are_understood(rt: HostRuntime) -> Result<(), Fail> {
    let heap = rt.alloc();
    assert_eq!(rt; asked_of(heap, &[])?, Request::Run(Kind::Plain));
    assert_eq!(rt; asked_of(heap, &["plain"])?, Request::Run(Kind::Plain));
    assert_eq!(rt; asked_of(heap, &["guarded"])?, Request::Run(Kind::Guarded));
    assert_eq!(rt; asked_of(heap, &["--help"])?, Request::Help);
    Ok(())
}

#[test]
fn other_words_are_not_understood(rt: HostRuntime) -> Result<(), Fail> {
    let heap = rt.alloc();
    for word in ["", "Plain", "plai", "plain ", "guarde", "-help", "--help="] {
        assert_eq!(rt;
            asked_of(heap, &[word])?,
            Request::NotUnderstood,
            "{}",
            word
        );
        assert_eq!(rt;
            asked_of(heap, &["plain", word])?,
            Request::NotUnderstood,
            "{}",
            word
        );
    }
    for words in [["guarded", "guarded"], ["--help", "plain"]] {
        assert_eq!(rt; asked_of(heap, &words)?, Request::NotUnderstood);
    }
    Ok(())
}

fn bytes(heap: Global, count: usize) -> Result<Vec<u8>, AllocError> {
    (0..count).map(|i| (i % 251) as u8).collect(heap)
}

// The source is read to its end, and its first bytes are kept, as many as told.
#[test]
fn input_is_kept_up_to_the_limit_and_one(rt: HostRuntime) -> Result<(), Fail> {
    let heap = rt.alloc();
    for (count, kept) in [
        (0, 0),
        (1, 1),
        (32_768, 32_768),
        (32_769, 32_769),
        (40_000, 32_769),
    ] {
        let text = bytes(heap, count)?;
        let mut source = text.as_slice();
        let read = read_limited(&mut source, LIMIT, heap)?;
        assert_eq!(rt; source.len(), 0, "what is left of the source");
        assert!(rt;
            read.as_slice() == bytes(heap, kept)?.as_slice(),
            "{}",
            count
        );
    }
    Ok(())
}

#[test]
fn an_interrupted_source_is_read_on(rt: HostRuntime) -> Result<(), Fail> {
    let heap = rt.alloc();
    let mut source = Halting {
        rest: b"eleven here",
        halts: false,
    };
    let read = read_limited(&mut source, 6, heap)?;
    assert!(rt; read.as_slice() == b"eleven ".as_slice());
    assert_eq!(rt; source.rest.len(), 0);
    Ok(())
}

#[test]
fn only_a_run_reads(rt: HostRuntime) -> Result<(), Fail> {
    let heap = rt.alloc();
    let mut source = b"abc".as_slice();
    for request in [Request::Help, Request::NotUnderstood] {
        let none = read_for(request, &mut source, LIMIT, heap)?;
        assert_eq!(rt; none.len(), 0);
        assert_eq!(rt; source.len(), 3);
    }
    let all = read_for(Request::Run(Kind::Plain), &mut source, LIMIT, heap)?;
    assert!(rt; all.as_slice() == b"abc".as_slice());
    Ok(())
}

fn answer(heap: Global, failed: bool) -> Result<Answer, AllocError> {
    Ok(Answer {
        output: b"eleven here".to_vec(heap)?,
        words: String::from_str(heap, "words")?,
        failed,
    })
}

#[test]
fn an_answer_is_delivered_whole(rt: HostRuntime) -> Result<(), Fail> {
    let heap = rt.alloc();
    for failed in [false, true] {
        let answer = answer(heap, failed)?;
        let mut output = with_room(heap, 20);
        let mut errors = with_room(heap, 20);
        assert_eq!(rt; deliver(&answer, &mut output, &mut errors).is_err(), failed);
        assert!(rt; output.got.as_slice() == b"eleven here".as_slice());
        assert!(rt; errors.got.as_slice() == b"words".as_slice());
    }
    Ok(())
}

#[test]
fn what_cannot_be_written_is_an_error(rt: HostRuntime) -> Result<(), Fail> {
    let heap = rt.alloc();
    let answer = answer(heap, false)?;
    for (output, errors, fits) in [(11, 5, true), (10, 5, false), (11, 4, false)] {
        let mut output = with_room(heap, output);
        let mut errors = with_room(heap, errors);
        assert_eq!(rt; deliver(&answer, &mut output, &mut errors).is_ok(), fits);
    }
    Ok(())
}
