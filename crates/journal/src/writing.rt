// The line that is written for an entry, at the front of a lent room.
ghost use Rattle.std.specs.Prelude.{◌≡◌, [], ◌∷◌, ◌++◌, ◌≤◌, ◌<◌, length};
ghost use Rattle.card.specs.Answers.{number_of, values_of};
ghost use Rattle.card.specs.Inner.{answer_by};
ghost use Rattle.wire.specs.Room.{Filled};
ghost use Rattle.roads.specs.Acknowledgements.{text_reply, frame_reply};
ghost use Rattle.texts.specs.Numbers.{in_hex};
ghost use Rattle.journal.specs.Journal.{number_digits};
ghost use Rattle.texts.specs.Texts.{tab, or_dash};
ghost use Rattle.journal.specs.Inner.{letter_of, reply_of, output_of};

use crate::asking::Entry;
use card::{Answer, Verdict};
use frame::Framed;
use texts::put_hex;

fn letter(entry: Entry) -> u8
    ensures { result ≡ letter_of entry }
{
    match entry {
        Entry::Add(_, _, _) => b'N',
        Entry::Remove(_) => b'X',
        Entry::Report(_, _, _) => b'M',
        Entry::Text(_, _) => b'T',
        Entry::Frame(_) => b'F',
        Entry::Unreadable => b'E',
    }
}

// The letter and the number, each with its tab. The digits are put by hand: the library's formatting takes any number and
// any room, so it returns a Result, and here the room is enough.
fn put_head(letter: u8, number: u32, room: &mut [u8]) -> usize
    requires { (number < 100) × (5 ≤ length room.old) }
    ensures { Filled (letter ∷ tab ∷ (number_digits number ++ (tab ∷ []))) room.old room.new result }
{
    let tens = b'0' + (number / 10) as u8;
    let ones = b'0' + (number % 10) as u8;
    if number < 10 {
        wire::copy(&[letter, b'\t', ones, b'\t'], room)
    } else {
        wire::copy(&[letter, b'\t', tens, ones, b'\t'], room)
    }
}

// A frame's reply is put as bytes into a room of its own, and from there in digits.
fn put_frame_reply(address: u8, answer: Answer, room: &mut [u8]) -> usize
    requires { 32 ≤ length room.old }
    ensures { Filled (in_hex (frame_reply address (number_of answer) (values_of answer))) room.old room.new result }
{
    let mut reply = [0; 32];
    let n = roads::put_frame(address, answer, &mut reply);
    put_hex(&reply[..n], room)
}

// The reply, if there is one.
fn put_reply(entry: Entry, answer: Answer, room: &mut [u8]) -> usize
    requires { 32 ≤ length room.old }
    ensures { Filled (reply_of entry (number_of answer) (values_of answer)) room.old room.new result }
{
    match entry {
        Entry::Text(_, _) => roads::put_text(answer, room),
        Entry::Frame(Framed::BadSum(address) | Framed::Request(address, _)) => {
            put_frame_reply(address, answer, room)
        }
        _ => 0,
    }
}

// The reply, or "-" where there is none: 0 bytes, by the contracts of `put_text` and `put_frame`.
fn put_reply_or_dash(entry: Entry, answer: Answer, room: &mut [u8]) -> usize
    requires { 32 ≤ length room.old }
    ensures { Filled (or_dash (reply_of entry (number_of answer) (values_of answer))) room.old room.new result }
{
    match put_reply(entry, answer, room) {
        0 => wire::copy(b"-", room),
        n => n,
    }
}

// Letter, number and reply, parted by tabs, and a line feed; never more than 40 bytes.
fn put_output(entry: Entry, answer: Answer, room: &mut [u8]) -> usize
    requires { 40 ≤ length room.old }
    ensures filled { Filled (output_of entry (number_of answer) (values_of answer)) room.old room.new result }
    ensures upper_bound { result ≤ 40 }
{
    let k = put_head(letter(entry), answer.number(), room);
    let n = put_reply_or_dash(entry, answer, &mut room[k..]);
    let end = k + n;
    room[end] = b'\n';
    end + 1
}

// The same, for an entry as it was judged.
pub fn put_judged(entry: Entry, verdict: Verdict, room: &mut [u8]) -> usize
    requires { 40 ≤ length room.old }
    ensures filled { Filled (output_of entry (number_of (answer_by verdict)) (values_of (answer_by verdict))) room.old room.new result }
    ensures upper_bound { result ≤ 40 }
{
    put_output(entry, verdict.answer(), room)
}
