// What the words after a program's name ask for.
ghost use Rattle.std.specs.Prelude.{map, string_bytes};
ghost use Rattle.programs.specs.Words.{AskedBy, Asked};

#[derive(Clone, Copy, Debug, PartialEq, Eq)]
pub enum Kind {
    Plain,
    Guarded,
}

#[derive(Clone, Copy, Debug, PartialEq, Eq)]
pub enum Request {
    Run(Kind),
    Help,
    // A case and no error: `asked` cannot fail.
    NotUnderstood,
}

// A match: `FromStr` for a kind would leave half of it, and add an error.
fn one_word(word: &str) -> Request
    ensures { AskedBy word.now result }
{
    match word {
        "plain" => Request::Run(Kind::Plain),
        "guarded" => Request::Run(Kind::Guarded),
        "--help" => Request::Help,
        _ => Request::NotUnderstood,
    }
}

// Plain is run where nothing is said.
pub fn asked(words: &[String]) -> Request
    ensures value { Asked (map string_bytes words.now) result }
{
    match words {
        [] => Request::Run(Kind::Plain),
        [word] => one_word(word.as_str()),
        _ => Request::NotUnderstood,
    }
}
