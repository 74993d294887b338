// A line to zone 0, and what is written for it.
ghost use Rattle.std.specs.Prelude.{◌≡◌, ◌++◌, ◌+◌, ◌≤◌, length, true, []};
ghost use Rattle.zone.specs.Figures.{entries_of, each_in_range};
ghost use Rattle.card.specs.Answers.{number_of, refusal_number};
ghost use Rattle.line.specs.Places.{of_figures};
ghost use Rattle.saying.specs.Inner.{HasRoom, WroteAtMost, range_in, shown_seen};
ghost use Rattle.saying.specs.Loading.{wanted};
ghost use Rattle.saying.specs.Saying.{behind_blanks, meaning, carries_place, range_missed, end_missed, missed, expectation, caret, pointed, answer_line, explained, say_of};

use crate::writing::{Writer, meaning, words};
use card::{Answer, Record, Refusal};
use roads::Replied;
use wire::Parsed;
use zone::{Command, Figures, Ranged};

#[derive(Clone, Copy)]
pub struct Shown {
    pub after: Record,
    pub filled: usize,
}

// The range of a figure, in words.
fn write_range(ranged: Ranged, w: &mut Writer)
    requires { HasRoom w.old 10 }
    ensures { WroteAtMost 10 (range_in ranged) w.old w.new }
{
    w.decimal(ranged.lowest);
    w.text(b" to ");
    w.decimal(ranged.highest);
}

// The range of the first figure that is out of it.
fn write_first_missed(figures: Figures, range: u32, w: &mut Writer)
    requires { HasRoom w.old 10 }
    ensures { WroteAtMost 10 (range_missed range (entries_of figures)) w.old w.new }
{
    let row = figures.row(range);
    let first = row.iter().find(|g| !g.fits());
    if let Some(&missed) = first {
        write_range(missed, w);
    }
}

// What the end of a window may be, above its begin; nothing for the other forms.
#[tactic(auto, using(zone::proofs::Mended::begin_in))]
fn write_end_missed(figures: Figures, range: u32, w: &mut Writer)
    requires { (each_in_range range figures ≡ true) × HasRoom w.old 10 }
    ensures { WroteAtMost 10 (end_missed range figures) w.old w.new }
{
    if let Figures::AhueWindow(window) = figures {
        let row = figures.row(range);
        let end = Ranged {
            lowest: window.begin + 1,
            ..row[4]
        };
        write_range(end, w);
    }
}

// The range that the figure at the place of a 9 missed.
fn write_missed(figures: Figures, range: u32, w: &mut Writer)
    requires { HasRoom w.old 10 }
    ensures { WroteAtMost 10 (missed range figures) w.old w.new }
{
    if figures.each_in_range(range) {
        write_end_missed(figures, range, w);
    } else {
        write_first_missed(figures, range, w);
    }
}

// The same for a line; nothing where it is no command that writes.
fn write_missed_in(parsed: Parsed, range: u32, w: &mut Writer)
    requires { HasRoom w.old 10 }
    ensures { WroteAtMost 10 (of_figures (missed range) [] parsed) w.old w.new }
{
    if let Ok(Command::Write(figures)) = parsed {
        write_missed(figures, range, w);
    }
}

// What a refusal means, on a line of its own.
// Four functions write two blanks and a line feed: a closure for what is between needs a proof of its room at each call.
pub fn write_meant(why: Refusal, w: &mut Writer)
    requires { HasRoom w.old 83 }
    ensures { WroteAtMost 83 (behind_blanks (meaning (refusal_number why))) w.old w.new }
{
    w.text(b"  ");
    w.text(meaning(why));
    w.text(b"\n");
}

// What is wrong with a line: why it is refused, the place, and the range of its zone, against which its figures are held.
#[derive(Clone, Copy)]
pub struct Fault<'a> {
    pub why: Refusal,
    pub range: u32,
    pub line: &'a [u8],
    pub place: usize,
}

impl Fault<'_> {
    fn carries_place(&self) -> bool
        ensures { result ≡ carries_place (refusal_number self.now.why) }
    {
        matches!(self.why, Refusal::Syntax | Refusal::OutOfRange)
    }

    // What is expected at the place.
    fn write_expectation(&self, w: &mut Writer)
        requires { HasRoom w.old 12 }
        ensures { WroteAtMost 12 (expectation (refusal_number self.now.why) self.now.range self.now.line.now self.now.place) w.old w.new }
    {
        if let Refusal::Syntax = self.why {
            let behind_letters = self.place.saturating_sub(5);
            w.text(words(line::expected(self.line, behind_letters)));
        } else {
            let reading = line::read(self.line);
            write_missed_in(reading.parsed, self.range, w);
        }
    }

    // A caret in a column, and behind it what is expected there if the refusal carries a place.
    pub fn write_caret(&self, column: usize, w: &mut Writer)
        requires { HasRoom w.old (column + 17) }
        ensures { WroteAtMost (column + 17) (behind_blanks (caret column (wanted (refusal_number self.now.why) self.now.range self.now.line.now self.now.place))) w.old w.new }
    {
        w.text(b"  ");
        w.blanks(column);
        w.text(b"^");
        if self.carries_place() {
            w.text(b" ");
            self.write_expectation(w);
        }
        w.text(b"\n");
    }

    // The line as it prints, and under it the caret.
    fn write_pointed(&self, w: &mut Writer)
        requires { (carries_place (refusal_number self.now.why) ≡ true) × (length self.now.line.now ≤ 600) × (self.now.place ≤ 600) × HasRoom w.old 1220 }
        ensures { WroteAtMost 1220 (pointed self.now.line.now self.now.place (expectation (refusal_number self.now.why) self.now.range self.now.line.now self.now.place)) w.old w.new }
    {
        w.text(b"  ");
        w.printed(self.line);
        w.text(b"\n");
        self.write_caret(self.place, w);
    }

    // What stands behind the answer.
    fn write_explained(&self, w: &mut Writer)
        requires { (length self.now.line.now ≤ 600) × (self.now.place ≤ 600) × HasRoom w.old 1303 }
        ensures { WroteAtMost 1303 (explained (refusal_number self.now.why) self.now.range self.now.line.now self.now.place) w.old w.new }
    {
        write_meant(self.why, w);
        if self.carries_place() {
            self.write_pointed(w);
        }
    }
}

// What is said of a line that was answered: the answer, and behind it what is wrong, if it was refused.
fn write_replied(replied: Replied, reply: &[u8], range: u32, line: &[u8], w: &mut Writer)
    requires { (length reply.now ≤ 32) × (length line.now ≤ 600) × (replied.place ≤ 600) × HasRoom w.old 1344 }
    ensures { WroteAtMost 1344 (answer_line (number_of replied.answer) reply.now replied.place ++ explained (number_of replied.answer) range line.now replied.place) w.old w.new }
{
    w.answer(replied.answer.number(), reply, replied.place as u32);
    if let Answer::Refused(why) = replied.answer {
        let fault = Fault {
            why,
            range,
            line,
            place: replied.place,
        };
        fault.write_explained(w);
    }
}

// A line to zone 0 of the record, and what is said of it. The result is the record afterwards.
#[tactic(auto, using(crate::proofs::Told::written), unfolding(crate::specs::Saying::say_of))]
fn write_said(r: Record, line: &[u8], w: &mut Writer) -> Record
    requires { HasRoom w.old 1344 }
    ensures after { result ≡ (say_of r line.now).after }
    ensures output { WroteAtMost 1344 (say_of r line.now).output w.old w.new }
{
    if line.len() > 600 {
        let unreadable = Replied {
            answer: Answer::Refused(Refusal::Unreadable),
            length: 0,
            place: 0,
            after: r,
        };
        write_replied(unreadable, b"", 0, b"", w);
        return r;
    }
    let mut room = [0u8; 32];
    let replied = roads::text(r, 0, line, &mut room);
    write_replied(replied, &room[..replied.length], r.range_at(0), line, w);
    replied.after
}

// A line to zone 0 of the record. What is written for it stands at the front of `out`.
pub fn say(r: Record, line: &[u8], out: &mut [u8]) -> Shown
    requires { 1500 ≤ length out.old }
    ensures out_after { shown_seen result out.new ≡ say_of r line.now }
    ensures filled_bound { result.filled ≤ 1500 }
{
    let mut w = Writer::new(out);
    let after = write_said(r, line, &mut w);
    Shown {
        after,
        filled: w.len(),
    }
}
