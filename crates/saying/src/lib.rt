// What an operator is told of a line: its answer, and for a refusal what is wrong with it, in words; and of a recipe, what
// came of loading it.
//
// specs/Saying.antt says what is written for a line; `say` sends the line by the text road and writes it.
// specs/Loading.antt says what is written of a recipe; `say_loaded` writes it.
#![tactic(auto)]

mod loading;
mod saying;
mod writing;

pub use loading::say_loaded;
pub use saying::{Shown, say};
