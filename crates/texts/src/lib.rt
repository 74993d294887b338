// Decimals, hexadecimal digits and the lines of a text: what the log shares with whatever else reads lines.
//
// specs/Numbers.antt says what the digits are, specs/Texts.antt what the lines of a text are, and the fields of a line.
#![tactic(auto)]

mod decimals;
mod hexadecimal;
mod lines;

pub use decimals::{behind_tab, zone_at};
pub use hexadecimal::{digit_values, put_hex, unhex};
pub use lines::{Lines, line_end};
