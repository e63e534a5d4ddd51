// A program's whole answer as a value, and its delivery.
ghost use Rattle.std.specs.Prelude.{OnOk, string_bytes};
ghost use Rattle.std.specs.Io.KnownBytes.{Appends};
ghost use Rattle.programs.specs.Answers.{Delivered};

use anyhow::bail;
use std::io::Write;

#[derive(Drop)]
pub struct Answer {
    // The bytes for standard output.
    pub output: Vec<u8>,
    // What is said to people on standard error.
    pub words: String,
    // Whether the program ends in an error. What is written is there in both cases, so no `Result` fits.
    pub failed: bool,
}

// Writes the answer whole, and is itself an error where the answer is one.
pub fn deliver<O: Write, E: Write>(
    answer: &Answer,
    output: &mut O,
    errors: &mut E,
) -> anyhow::Result<()>
    ensures test { Delivered answer.now result }
    ensures output { OnOk result (Appends (O.contents output.old) (O.contents output.new) answer.now.output.items) }
    ensures words { OnOk result (Appends (E.contents errors.old) (E.contents errors.new) (string_bytes answer.now.words)) }
{
    output.write_all(answer.output.as_slice())?;
    errors.write_all(answer.words.as_bytes())?;
    if answer.failed {
        bail!("the program ends in an error");
    }
    Ok(())
}
