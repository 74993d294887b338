// What a turn of the program leaves to the next one.
ghost use Rattle.std.specs.Prelude.{◌≤◌};

use card::Record;
use output::Ending;
use std::ops::ControlFlow;

// The state of the operator's program has these fields too, and one generic type in `output` was tried: with a type
// parameter and a ghost field Clone cannot be derived, and a clone by hand returns a Result with an AllocError.
//
// What is kept between two blocks, how many bytes of output were handed to write, and whether to go on. Of the line under
// way no more than 601 bytes are held.
#[derive(Clone, Copy)]
pub(crate) struct Between {
    pub after: Record,
    pub held: usize,
    pub handed: usize,
    pub next: ControlFlow<Ending>,
    ghost few: { held ≤ 601 },
}
