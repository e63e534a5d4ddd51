// A program's input, of which no more is kept than tells that it is above a limit.
ghost use Rattle.std.specs.Prelude.{◌≡◌, IfOk, IfSome, OnOk};
ghost use Rattle.std.specs.Io.KnownBytes.{IsAtEnd};
ghost use Rattle.programs.specs.Inputs.{kept, kept_for, Bounded, ReadFor, Left};

use crate::request::Request;
use std::alloc::Global;
use std::io;
use std::io::Read;

// Reads to the end, so that what writes the input is not cut off.
#[tactic(auto, using(crate::proofs::Keeping::kept_first))]
pub fn read_limited<R: Read>(source: &mut R, limit: u32, heap: Global) -> io::Result<Vec<u8>>
    ensures bound { IfOk result (λ v. Bounded limit v.items) }
    ensures first { IfOk result (λ v. IfSome (R.remaining source.old) (λ bytes. v.items ≡ kept limit bytes)) }
    ensures at_end { OnOk result (IsAtEnd (R.remaining source.new)) }
{
    let most = limit as usize + 1;
    let mut text = Vec::new(heap);
    // Lent by hand: of what `by_ref` lends, no clause says which bytes it has.
    (&mut *source).take(most as u64).read_to_end(&mut text)?;
    // `take` gave no more already, but no clause says so of a source whose bytes are not known.
    text.truncate(most);
    io::copy(source, &mut io::sink())?;
    Ok(text)
}

// Only a run reads its input.
pub fn read_for<R: Read>(
    request: Request,
    source: &mut R,
    limit: u32,
    heap: Global,
) -> io::Result<Vec<u8>>
    ensures bound { IfOk result (λ v. ReadFor request limit v.items) }
    ensures first { IfOk result (λ v. IfSome (R.remaining source.old) (λ bytes. v.items ≡ kept_for request limit bytes)) }
    ensures left { OnOk result (Left request (R.remaining source.old) (R.remaining source.new)) }
{
    match request {
        Request::Run(_) => read_limited(source, limit, heap),
        Request::Help | Request::NotUnderstood => Ok(Vec::new(heap)),
    }
}
