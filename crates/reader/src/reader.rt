// A sheet's text, to be read as one kind of time, and the place up to which it was read.
// A reader is a value: a copy of it that was kept reads again from where it stood.
ghost use Rattle.std.specs.Prelude.{◌≡◌, ◌+◌, ◌<◌, ◌≤◌, length, ⊤};
ghost use Rattle.reader.specs.Texts.{limit, Ended};

use lines::line::Letter;
use std::alloc::AllocError;
use std::marker::PhantomData;

pub struct Reader<'a, T> {
    // The whole text, since it is looked at as a whole, and since the promise is about a place in it.
    text: &'a [u8],
    // Where the next line begins, and its number.
    place: usize,
    line: usize,
    // The letter of the line before it.
    last: Option<Letter>,
    kind: PhantomData<T>,
    ghost within: { place ≤ length text.now },
    ghost counted: { line ≤ place + 1 },
    // A line was handed out, so the whole text was found readable.
    ghost short: { 0 < place → length text.now ≤ limit },
    ghost ended: { 0 < place → Ended text.now },
}

// By hand: neither can be derived beside a ghost field.
impl<T> Copy for Reader<'_, T> {}

impl<T> Clone for Reader<'_, T> {
    ghost is_clone = { λ s t. t ≡ s };

    ghost is_infallible = { λ _. ⊤ };

    fn clone(&self) -> Result<Self, AllocError> {
        Ok(*self)
    }
}

mod reading;

pub use reading::LIMIT;
