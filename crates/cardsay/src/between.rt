// What a byte of the input, and a block of it, leaves to the next one.
ghost use Rattle.std.specs.Prelude.{◌≤◌};

use card::Record;
use output::Ending;
use std::ops::ControlFlow;

// The log program's state has these fields too, and one generic type in `output` was tried: with a type parameter and a
// ghost field Clone cannot be derived, and a clone by hand returns a Result with an AllocError.
//
// The record, how many bytes of the line under way are held, no more than 601, how many bytes of output were handed to
// write, and whether to go on.
#[derive(Clone, Copy)]
pub(crate) struct Between {
    pub after: Record,
    pub held: usize,
    pub handed: usize,
    pub next: ControlFlow<Ending>,
    ghost few: { held ≤ 601 },
}
