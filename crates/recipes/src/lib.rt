// Recipes: up to 64 lines of zone, tab, text command, which one call loads whole or not at all.
//
// The call, load, asks nothing of the caller: any record, any bytes and any room may be handed in.
// What is right is written in specs/Recipes.antt.
#![tactic(auto)]

mod lines;
mod loading;
mod replying;

pub use loading::{Loaded, load};
