// Texts, one behind the other at the front of a lent room.
ghost use Rattle.std.specs.Prelude.{◌≡◌, map, ◌≤◌, length, replicate};
ghost use Rattle.texts.specs.Texts.{or_dash};
ghost use Rattle.card.specs.Answers.{refusal_number};
ghost use Rattle.saying.specs.Inner.{HasRoom, Wrote, WroteAtMost};
ghost use Rattle.saying.specs.Saying.{decimal_for, answer_line, meaning, printed, words};

use card::Refusal;
use line::Expects;

// A room that is lent, and how much of its front is written.
#[derive(Drop)]
pub struct Writer<'a> {
    room: &'a mut [u8],
    filled: usize,
}

impl<'a> Writer<'a> {
    pub fn new(room: &'a mut [u8]) -> Writer<'a>
        ensures same_room { result.room.ghost_name ≡ room.entry.ghost_name }
        ensures contents { result.room.now ≡ room.old }
        ensures filled { result.filled ≡ 0 }
    {
        Writer { room, filled: 0 }
    }

    // How many bytes are written.
    pub fn len(&self) -> usize
        ensures { result ≡ self.now.filled }
    {
        self.filled
    }

    pub fn text(&mut self, text: &[u8])
        requires { HasRoom self.old (length text.now) }
        ensures { Wrote text.now self.old self.new }
    {
        let end = self.filled + text.len();
        self.room[self.filled..end].copy_from_slice(text);
        self.filled = end;
    }

    pub fn blanks(&mut self, n: usize)
        requires { HasRoom self.old n }
        ensures { Wrote (replicate n 32) self.old self.new }
    {
        let end = self.filled + n;
        self.room[self.filled..end].fill(b' ');
        self.filled = end;
    }

    // The bytes of a line as they print.
    pub fn printed(&mut self, line: &[u8])
        requires { HasRoom self.old (length line.now) }
        ensures { Wrote (map printed line.now) self.old self.new }
    {
        for &byte in line {
            self.text(&[printed_byte(byte)]);
        }
    }

    // A number below 1000, without leading zeros. Not by Display: from 1000 on decimal_for has the last three digits.
    pub fn decimal(&mut self, n: u32)
        requires { HasRoom self.old 3 }
        ensures { WroteAtMost 3 (decimal_for n) self.old self.new }
    {
        let hundreds = b'0' + (n / 100 % 10) as u8;
        let tens = b'0' + (n / 10 % 10) as u8;
        let ones = b'0' + (n % 10) as u8;
        match n {
            0..10 => self.text(&[ones]),
            10..100 => self.text(&[tens, ones]),
            _ => self.text(&[hundreds, tens, ones]),
        }
    }

    // Number, reply and place, parted by tabs; "-" where there is no reply.
    pub fn answer(&mut self, number: u32, reply: &[u8], place: u32)
        requires { (length reply.now ≤ 32) × HasRoom self.old 41 }
        ensures { WroteAtMost 41 (answer_line number reply.now place) self.old self.new }
    {
        self.decimal(number);
        self.text(b"\t");
        if reply.is_empty() {
            self.text(b"-");
        } else {
            self.text(reply);
        }
        self.text(b"\t");
        self.decimal(place);
        self.text(b"\n");
    }
}

// A byte as it prints, or a dot.
fn printed_byte(x: u8) -> u8
    ensures { result ≡ printed x }
{
    match x {
        b' '..=b'~' => x,
        _ => b'.',
    }
}

// What a refusal means.
pub fn meaning(why: Refusal) -> &'static [u8]
    ensures text { result.now ≡ meaning (refusal_number why) }
    ensures short { length result.now ≤ 80 }
{
    match why {
        Refusal::NoRoom => b"the room for the reply is below 32 bytes",
        Refusal::NotSound => b"the record is not sound",
        Refusal::NoZone => b"there is no such zone",
        Refusal::Unknown => b"unknown command: L or S comes first, then AHUE, HZBG, RRUE or SOLW",
        Refusal::Syntax => b"syntax error: wrong length, spaces or digits",
        Refusal::OutOfRange => b"a figure is outside its range",
        Refusal::Locked => b"the write is not permitted in this state",
        Refusal::NoRecipe =>
            b"not a recipe: more than 64 lines, or a line without its zone and tab",
        _ => b"unreadable: the line has more than 600 bytes",
    }
}

// What is expected at a place.
pub fn words(expects: Expects) -> &'static [u8]
    ensures text { result.now ≡ words expects }
    ensures short { length result.now ≤ 12 }
{
    match expects {
        Expects::Space => b"a space",
        Expects::Digit => b"a digit",
        Expects::Nothing => b"nothing more",
    }
}
