// The lines of a recipe, before any of them is tried.
ghost use Rattle.std.specs.Prelude.{◌≡◌, true, length, OnOk, IfErr};
ghost use Rattle.card.specs.declared.answers.Refusal.TheVariants.{NoRecipe};
ghost use Rattle.texts.specs.Texts.{lines_of};
ghost use Rattle.recipes.specs.Inner.{ill_formed, CutOut};

use card::Refusal;
use texts::{Lines, zone_at};

// A line of a recipe: the zone that it is for, and its command.
#[derive(Clone, Copy)]
pub struct Cut<'a> {
    pub zone: usize,
    pub command: &'a [u8],
}

// Goes through all the lines, and cuts them out into the first places: how many there are, and 14 where there are more
// than 64 or one lacks its zone or its tab.
pub fn survey<'a>(recipe: &'a [u8], cuts: &mut [Cut<'a>; 64]) -> (usize, Result<(), Refusal>)
    ensures lines { result.0 ≡ length (lines_of recipe.now) }
    ensures cut { OnOk result.1 (CutOut (lines_of recipe.now) cuts.new) }
    ensures ill { IfErr result.1 (λ why. (why ≡ NoRecipe) × (ill_formed (lines_of recipe.now) ≡ true)) }
{
    // counted here, and not by `enumerate`: the count is returned
    let mut lines = 0;
    let mut formed = Ok(());
    for line in Lines::new(recipe) {
        match zone_at(line, 0) {
            Some((zone, start)) if lines < 64 => {
                cuts[lines] = Cut {
                    zone,
                    command: &line[start..],
                };
            }
            _ => formed = Err(Refusal::NoRecipe),
        }
        lines += 1;
    }
    (lines, formed)
}
