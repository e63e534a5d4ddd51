// Bytes that are written as printable text.
ghost use Rattle.std.specs.Prelude.{◌∷◌, IfOk};
ghost use Rattle.reader_tests.specs.Escapes.{Digit, Takes, Spells};

use anyhow::Context;
use std::alloc::Global;

// Small letters only: the library's `to_digit` takes capitals too.
fn digit(byte: u8) -> Option<u8>
    ensures { Digit byte result }
{
    match byte {
        b'0'..=b'9' => Some(byte - b'0'),
        b'a'..=b'f' => Some(byte - b'a' + 10),
        _ => None,
    }
}

// What an escape stands for, from what follows its backslash.
fn escaped_byte(text: &[u8]) -> Option<(u8, &[u8])>
    ensures { Takes (92 ∷ text.now) result }
{
    match text {
        [b'n', rest @ ..] => Some((b'\n', rest)),
        [b'\\', rest @ ..] => Some((b'\\', rest)),
        [b'x', high, low, rest @ ..] => Some((digit(*high)? * 16 + digit(*low)?, rest)),
        _ => None,
    }
}

fn first_byte(text: &[u8]) -> Option<(u8, &[u8])>
    ensures { Takes text.now result }
{
    match text {
        [] => None,
        [b'\\', rest @ ..] => escaped_byte(rest),
        [byte, rest @ ..] => Some((*byte, rest)),
    }
}

pub fn decoded(heap: Global, text: &[u8]) -> anyhow::Result<Vec<u8>>
    ensures { IfOk result (λ v. Spells text.now v.items) }
{
    let mut bytes = Vec::new(heap);
    let mut rest = text;
    while !rest.is_empty() {
        let (byte, after) = first_byte(rest).context(
            "a case has an escape that stands for no byte",
        )?;
        bytes.push(byte)?;
        rest = after;
    }
    Ok(bytes)
}
