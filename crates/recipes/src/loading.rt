// The call that loads a recipe.
ghost use Rattle.std.specs.Prelude.{◌≡◌, ◌-◌, true, map, ◌≤◌, length, take, IfOk, IfErr, OnOk, OnErr};
ghost use Rattle.card.specs.Records.{sound};
ghost use Rattle.recipes.specs.Recipes.{loaded_seen, load_of};
ghost use Rattle.recipes.specs.Inner.{cut_seen, told, try_from, all_done, StopsAs, stored_as, refused_as, at_once};

use crate::lines::{Cut, survey};
use crate::replying::put_replies;
use card::{Answer, Record, Refusal, Verdict, heard};
use roads::{asked_of, one_of_sixteen, place_of};

// What a recipe is answered; the number of the line that was refused, from 1, and the place in its
// command; how long the reply to each line is; and the record.
#[derive(Clone, Copy)]
pub struct Loaded {
    pub answer: Answer,
    // 0, and no Option, where no line is refused (loaded_seen)
    pub line: usize,
    pub place: usize,
    pub lengths: [usize; 64],
    pub after: Record,
}

// Why a recipe is refused, and the number of the line and the place in it, if a line is refused; otherwise 0 and 0, as
// they become those of `Loaded`.
#[derive(Clone, Copy)]
struct Stopped {
    why: Refusal,
    line: usize,
    place: usize,
}

// A refusal before any line is tried.
impl From<Refusal> for Stopped {
    ghost from_gives = { λ why s. s ≡ at_once why };

    fn from(why: Refusal) -> Stopped {
        Stopped {
            why,
            line: 0,
            place: 0,
        }
    }
}

// Tries the lines in turn, up to the first that is refused. The record stands in this loop, and each line
// is judged at its zone alone: the record is sound, and a done line leaves it so.
fn try_lines(r: &mut Record, cuts: &[Cut], answers: &mut [Answer; 64]) -> Result<(), Stopped>
    requires { (sound r.old ≡ true) × (length cuts.now ≤ 64) }
    ensures done { OnOk result (try_from 0 r.old (map cut_seen cuts.now) ≡ all_done (map told (take (length cuts.now) answers.new)) r.new) }
    ensures stopped { IfErr result (λ s. StopsAs (try_from 0 r.old (map cut_seen cuts.now)) s (map told (take (s.line - 1) answers.new)) r.new) }
{
    // By index, as in texts' `unhex`: of what is written through a `zip` nothing is known behind the loop.
    for (k, cut) in cuts.iter().enumerate() {
        let reading = line::read(cut.command);
        let z = &mut r.zones[one_of_sixteen(cut.zone)];
        let verdict = heard(*z, asked_of(*z, cut.zone, reading.parsed));
        // A line alters its zone by a write alone, but what `heard` promises does not say so.
        match verdict {
            Verdict::Refuses(why) => {
                return Err(Stopped {
                    why,
                    line: k + 1,
                    place: place_of(Answer::Refused(why), reading, z.range),
                });
            }
            Verdict::Tells(figures) => answers[k] = Answer::Told(figures),
            Verdict::Writes(figures) => {
                *z = z.with_figures(figures);
                answers[k] = Answer::Done;
            }
            _ => {
                *z = verdict.after(*z);
                answers[k] = verdict.answer();
            }
        }
    }
    Ok(())
}

// Stores the lines and puts their replies, or tells why not: then the record is as the lines before left it, and
// nothing is put.
fn store(r: &mut Record, recipe: &[u8], room: &mut [u8]) -> Result<[usize; 64], Stopped>
    ensures done { IfOk result (λ lengths. load_of r.old recipe.now room.old ≡ stored_as lengths r.new room.new) }
    ensures stopped { IfErr result (λ s. load_of r.old recipe.now room.old ≡ refused_as s r.old room.old) }
    ensures room_kept { OnErr result (room.new ≡ room.old) }
{
    // The library uses no heap: lines and answers have 64 places each.
    let mut cuts = [Cut {
        zone: 0,
        command: &recipe[..0],
    }; 64];
    let (lines, formed) = survey(recipe, &mut cuts);
    if room.len() / 32 < lines {
        return Err(Refusal::NoRoom.into());
    }
    if !r.is_sound() {
        return Err(Refusal::NotSound.into());
    }
    formed?;
    let mut answers = [Answer::Done; 64];
    try_lines(r, &cuts[..lines], &mut answers)?;
    Ok(put_replies(&answers[..lines], room))
}

// Loads a recipe, whole or not at all.
pub fn load(given: Record, recipe: &[u8], room: &mut [u8]) -> Loaded
    ensures { loaded_seen result room.new ≡ load_of given recipe.now room.old }
{
    let mut after = given;
    match store(&mut after, recipe, room) {
        Ok(lengths) => Loaded {
            answer: Answer::Done,
            line: 0,
            place: 0,
            lengths,
            after,
        },
        // The zones as they were before the first line.
        Err(stopped) => Loaded {
            answer: Answer::Refused(stopped.why),
            line: stopped.line,
            place: stopped.place,
            lengths: [0; 64],
            after: given,
        },
    }
}
