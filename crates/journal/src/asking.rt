// What a line of the log asks.
ghost use Rattle.std.specs.Prelude.{◌≡◌, drop};
ghost use Rattle.journal.specs.Lines.{decimals, add_asks, remove_asks, report_asks, text_asks, frame_asks, asks_of};
ghost use Rattle.texts.specs.Inner.{digit_values};
ghost use Rattle.journal.specs.Inner.{triple_of, entry_in, entry_of, tabbed};

use frame::Framed;
use texts::{behind_tab, digit_values, unhex, zone_at};
use wire::Parsed;

// The letters N, X, M, T and F, and every other line; a command or a frame has been read. A line that cannot be read is
// a case of its own: it is answered, under a letter and a number.
#[derive(Clone, Copy)]
pub enum Entry {
    Add(usize, u32, u32),
    Remove(usize),
    Report(usize, u32, u32),
    Text(usize, Parsed),
    Frame(Framed),
    Unreadable,
}

// Three decimals, each behind a tab, and nothing more.
fn three(line: &[u8]) -> Option<(u32, u32, u32)>
    ensures { result ≡ triple_of (decimals 3 (drop 1 line.now)) }
{
    let (a, i) = behind_tab(line, 1)?;
    let (b, j) = behind_tab(line, i)?;
    let (c, k) = behind_tab(line, j)?;
    if k < line.len() {
        return None;
    }
    Some((a, b, c))
}

// An addition and a report are the same three numbers, of two entries.
fn add(line: &[u8]) -> Option<Entry>
    ensures { result ≡ entry_in (add_asks (decimals 3 (drop 1 line.now))) }
{
    three(line).map(|(zone, address, range)| Entry::Add(zone as usize, address, range))
}

fn report(line: &[u8]) -> Option<Entry>
    ensures { result ≡ entry_in (report_asks (decimals 3 (drop 1 line.now))) }
{
    three(line).map(|(zone, state, actual)| Entry::Report(zone as usize, state, actual))
}

fn remove(line: &[u8]) -> Option<Entry>
    ensures { result ≡ entry_in (remove_asks (decimals 1 (drop 1 line.now))) }
{
    let (zone, i) = behind_tab(line, 1)?;
    if i < line.len() {
        return None;
    }
    Some(Entry::Remove(zone as usize))
}

// A tab stands behind the letter.
fn is_tabbed(line: &[u8]) -> bool
    ensures { result ≡ tabbed (drop 1 line.now) }
{
    matches!(line, [_, b'\t', ..])
}

// The command is all that follows the second tab.
fn text(line: &[u8]) -> Option<Entry>
    ensures { result ≡ entry_in (text_asks (drop 1 line.now)) }
{
    if !is_tabbed(line) {
        return None;
    }
    let (zone, start) = zone_at(line, 2)?;
    Some(Entry::Text(zone, line::read(&line[start..]).parsed))
}

// Reads the lines: the values of the digits, and a room for the bytes of a frame.
#[derive(Drop)]
pub struct Reader {
    values: [u8; 256],
    room: [u8; 261],
    ghost table: { values ≡ digit_values },
}

impl Reader {
    pub fn new() -> Reader {
        Reader {
            values: digit_values(),
            room: [0; 261],
        }
    }

    // The frame's bytes are first put into the room.
    fn frame(&mut self, line: &[u8]) -> Option<Entry>
        ensures { result ≡ entry_in (frame_asks (drop 1 line.now)) }
    {
        // the letter, the tab and 522 digits
        if !is_tabbed(line) || 524 < line.len() {
            return None;
        }
        let n = unhex(&line[2..], &self.values, &mut self.room)?;
        Some(Entry::Frame(frame::read(&self.room[..n])))
    }

    // What a line asks, if it can be read.
    fn read(&mut self, line: &[u8]) -> Option<Entry>
        ensures { result ≡ entry_in (asks_of line.now) }
    {
        if 600 < line.len() {
            return None;
        }
        match line.first()? {
            b'N' => add(line),
            b'X' => remove(line),
            b'M' => report(line),
            b'T' => text(line),
            b'F' => self.frame(line),
            _ => None,
        }
    }

    // What a line asks.
    pub fn asks(&mut self, line: &[u8]) -> Entry
        ensures { result ≡ entry_of (asks_of line.now) }
    {
        self.read(line).unwrap_or(Entry::Unreadable)
    }
}
