// What is said of a recipe that was handed to the card: the replies to its lines, or why it was refused.
ghost use Rattle.std.specs.Prelude.{◌≡◌, [], ℕ, ◌+◌, ◌*◌, ◌≤◌, length, take, get_or};
ghost use Rattle.texts.specs.Texts.{lines_of};
ghost use Rattle.card.specs.Answers.{refusal_number};
ghost use Rattle.recipes.specs.Recipes.{loaded_seen};
ghost use Rattle.saying.specs.Saying.{behind_blanks};
ghost use Rattle.saying.specs.Loading.{numbered, replies_from, refusal, shown_line, marked, pointed_in, refused_text, loading_said};
ghost use Rattle.saying.specs.Inner.{HasRoom, Wrote, WroteAtMost, InBounds};

use crate::saying::{Fault, write_meant};
use crate::writing::Writer;
use card::{Answer, Refusal};
use recipes::Loaded;
use texts::{Lines, zone_at};

// A line's number and its reply.
fn write_numbered(number: u32, reply: &[u8], w: &mut Writer)
    requires { (length reply.now ≤ 32) × HasRoom w.old 37 }
    ensures { WroteAtMost 37 (numbered number reply.now) w.old w.new }
{
    w.decimal(number);
    w.text(b"\t");
    w.text(reply);
    w.text(b"\n");
}

// The reply to each line of the recipe.
fn write_replies(recipe: &[u8], lengths: [usize; 64], room: &[u8], w: &mut Writer)
    requires { (length (lines_of recipe.now) ≤ 64) × (32 * length (lines_of recipe.now) ≤ length room.now) × ((k : ℕ) → get_or lengths k 0 ≤ 32) × HasRoom w.old 2368 }
    ensures { WroteAtMost 2368 (replies_from lengths room.now 0 (lines_of recipe.now)) w.old w.new }
{
    let lines = Lines::new(recipe);
    // by the line's number, under which `Loaded` has the length and the room the reply
    for k in 0..lines.count() {
        let from = 32 * k;
        let to = from + lengths[k];
        write_numbered(k as u32 + 1, &room[from..to], w);
    }
}

// Line, number and place of a refusal.
fn write_refusal(line: u32, number: u32, place: u32, w: &mut Writer)
    requires { HasRoom w.old 20 }
    ensures { WroteAtMost 20 (refusal line number place) w.old w.new }
{
    w.text(b"refused\t");
    w.decimal(line);
    w.text(b"\t");
    w.decimal(number);
    w.text(b"\t");
    w.decimal(place);
    w.text(b"\n");
}

// The line of a text that has so many before it; nothing where there is none.
fn line_behind(text: &[u8], others: usize) -> &[u8]
    ensures result_value { result.now ≡ get_or (lines_of text.now) others [] }
    ensures result_in_bounds { length result.now ≤ length text.now }
{
    let mut lines = Lines::new(text);
    lines.nth(others).unwrap_or(b"")
}

// Zone and command as they print.
fn write_shown(zone: &[u8], command: &[u8], w: &mut Writer)
    requires { HasRoom w.old (length zone.now + length command.now + 4) }
    ensures { Wrote (behind_blanks (shown_line zone.now command.now)) w.old w.new }
{
    w.text(b"  ");
    w.printed(zone);
    w.text(b" ");
    w.printed(command);
    w.text(b"\n");
}

// The zone and the command that is at fault, and under them the caret.
fn write_marked(zone: &[u8], fault: &Fault, w: &mut Writer)
    requires { (length zone.now + length fault.now.line.now ≤ 4096) × (fault.now.place ≤ 23) × HasRoom w.old 8240 }
    ensures { WroteAtMost 8240 (marked zone.now fault.now.line.now (refusal_number fault.now.why) fault.now.range fault.now.place) w.old w.new }
{
    write_shown(zone, fault.line, w);
    fault.write_caret(zone.len() + 1 + fault.place, w);
}

// The line that was refused, and under it the caret.
fn write_refused_line(loaded: Loaded, why: Refusal, line: &[u8], w: &mut Writer)
    requires { (length line.now ≤ 4096) × (loaded.place ≤ 23) × HasRoom w.old 8240 }
    ensures { WroteAtMost 8240 (pointed_in loaded.after (refusal_number why) loaded.place line.now) w.old w.new }
{
    if let Some((zone, start)) = zone_at(line, 0) {
        let end = start - 1;
        let fault = Fault {
            why,
            range: loaded.after.range_at(zone),
            line: &line[start..],
            place: loaded.place,
        };
        write_marked(&line[..end], &fault, w);
    }
}

// What is said of a recipe that was refused.
fn write_refused(loaded: Loaded, why: Refusal, recipe: &[u8], w: &mut Writer)
    requires { (length recipe.now ≤ 4096) × (loaded.line ≤ 64) × (loaded.place ≤ 23) × HasRoom w.old 8400 }
    ensures { WroteAtMost 8400 (refused_text loaded.after recipe.now (refusal_number why) loaded.line loaded.place) w.old w.new }
{
    write_refusal(loaded.line as u32, why.number(), loaded.place as u32, w);
    write_meant(why, w);
    if loaded.line != 0 {
        let line = line_behind(recipe, loaded.line - 1);
        write_refused_line(loaded, why, line, w);
    }
}

// What came of loading a recipe, in words.
#[tactic(auto, unfolding(crate::specs::Loading::loading_said))]
fn write_loaded(loaded: Loaded, recipe: &[u8], room: &[u8], w: &mut Writer)
    requires { (length recipe.now ≤ 4096) × HasRoom w.old 8400 × InBounds recipe.now (loaded_seen loaded room.now) }
    ensures { WroteAtMost 8400 (loading_said recipe.now (loaded_seen loaded room.now)) w.old w.new }
{
    if let Answer::Refused(why) = loaded.answer {
        write_refused(loaded, why, recipe, w);
    } else {
        w.text(b"loaded\n");
        write_replies(recipe, loaded.lengths, room, w);
    }
}

// What is said of a recipe of at most 4,096 bytes, for which the card has told what came of it and written its replies
// into the room. It stands at the front of `out`.
pub fn say_loaded(loaded: Loaded, recipe: &[u8], room: &[u8], out: &mut [u8]) -> usize
    requires { (length recipe.now ≤ 4096) × (8400 ≤ length out.old) × InBounds recipe.now (loaded_seen loaded room.now) }
    ensures out_after { take result out.new ≡ loading_said recipe.now (loaded_seen loaded room.now) }
    ensures upper_bound { result ≤ 8400 }
{
    let mut w = Writer::new(out);
    write_loaded(loaded, recipe, room, &mut w);
    w.len()
}
