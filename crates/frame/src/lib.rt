// The frame road's codec: a frame is read as a command to an address, and a command is written as its frame.
//
// It knows commands and no record. specs/Frame.antt says what the frame of a command is; proofs/Round.antt
// proves that it is read back as that command to that address, and that nothing else is read as one.
#![tactic(auto)]

mod reading;
mod sums;
mod writing;

pub use reading::{Framed, read};
pub use writing::{carries, put_figures, put_read, put_short};
