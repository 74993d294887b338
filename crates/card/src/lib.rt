// The record of sixteen zones and the calls on it.
//
// Each call takes a record and hands a record back, with an answer beside it. Nothing is asked of the
// caller: any record and any numbers may be handed in, and what is wrong is refused by its number.
// What is right is written in specs/: Calls.antt has each call's refusals as a list in the order of
// documents 01 and 02.
#![tactic(auto)]

mod answers;
mod judgements;
mod records;

pub use answers::{Answer, Refusal};
pub use judgements::{Verdict, added, heard, removed, reported};
pub use records::{OldEnd, OldEnds, Outcome, Record, Repaired};
