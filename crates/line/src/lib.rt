// The text road's codec: a line is read as a command, and a command is written as its line.
//
// It knows commands and no record. specs/Line.antt says what the line of a command is, specs/Places.antt where a line
// is wrong; proofs/Round.antt proves that a command's line is read back as that command, and that nothing else is read
// as one, proofs/Placed.antt that a line is refused exactly where it has a place.
#![tactic(auto)]

mod expecting;
mod fields;
mod reading;
mod writing;

pub use expecting::{Expects, expected};
pub use fields::digits;
pub use reading::{Reading, out_at, read};
pub use writing::{carries, put_figures, put_read};
