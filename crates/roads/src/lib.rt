// The calls of the two roads: a text line to a zone, a binary frame on the shared pair, and composing
// either.
//
// The four calls (text, frame, compose_line, compose_frame) ask nothing of the caller: any record, any
// bytes and any room may be handed in. The others are steps of theirs, which the log and recipes take one
// by one, for many lines to a record that was found sound: put_text and put_frame ask for a room of 32
// bytes. What is right is written in specs/: Calls.antt has each call's refusals as a list in document 01's order, and
// Acknowledgements.antt what is answered on the wire.
#![tactic(auto)]

mod answering;
mod calls;
mod composing;
mod judging;

pub use answering::{put_frame, put_text};
pub use calls::{Replied, asked, frame, place_of, text};
pub use composing::{Composed, compose_frame, compose_line};
pub use judging::{asked_of, is_missing, one_of_sixteen};
