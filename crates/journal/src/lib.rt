// The log: what a line asks, what the card answers to it, and the line that is written for it.
//
// specs/Lines.antt says what a line asks, specs/Journal.antt what it yields and what record it leaves, specs/Blocks.antt
// what that comes to for a whole log. The record stands in one loop, in blocks.rt: a line is turned into what
// it asks first, and the answer is written straight behind the output. Neither sees the record.
#![tactic(auto)]

mod asking;
mod blocks;
mod judging;
mod writing;

pub use blocks::{Kept, close, feed};
