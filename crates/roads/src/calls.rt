// A line to a zone, and a frame on the pair.
ghost use Rattle.std.specs.Prelude.{◌≡◌, ◌≤◌, length};
ghost use Rattle.card.specs.Answers.{number_of};
ghost use Rattle.roads.specs.Calls.{replied_seen, answer_text, text_place, answer_frame};
ghost use Rattle.roads.specs.Inner.{asked_by, place_found, silent_of, frame_at};

use crate::answering::{put_frame, put_text};
use card::{Answer, Record, Refusal};
use frame::Framed;
use line::Reading;
use wire::{Misread, Parsed};
use zone::Command;

// What a call answers, how long its reply is, and where a line is wrong: 0 unless the answer is 8 or 9.
#[derive(Clone, Copy)]
pub struct Replied {
    pub answer: Answer,
    // 0 without a reply, as document 01 has it
    pub length: usize,
    // 0, and no Option: the buyer's table has it so (text_place)
    pub place: usize,
    pub after: Record,
}

// What a line or a frame's body brings to a zone.
pub fn asked(parsed: Parsed) -> Result<Command, Refusal>
    ensures { result ≡ asked_by parsed }
{
    parsed.map_err(|misread| match misread {
        Misread::Unknown => Refusal::Unknown,
        Misread::Syntax => Refusal::Syntax,
    })
}

// The place that the answer to a line carries, in a zone of that temperature range; 0, as `place_found` has it, if none.
pub fn place_of(answer: Answer, reading: Reading, range: u32) -> usize
    ensures { result ≡ place_found (number_of answer) reading range }
{
    match answer {
        Answer::Refused(Refusal::Syntax) => reading.place,
        Answer::Refused(Refusal::OutOfRange) => line::out_at(reading.parsed, range),
        Answer::Done | Answer::Told(_) | Answer::Refused(_) => 0,
    }
}

// A refusal without a reply.
fn refused(r: Record, why: Refusal) -> Replied
    ensures { result ≡ record { answer = Answer.Refused why; length = 0; place = 0; after = r } }
{
    Replied {
        answer: Answer::Refused(why),
        length: 0,
        place: 0,
        after: r,
    }
}

// A line, without its terminator, to a zone.
pub fn text(r: Record, zone: usize, line: &[u8], room: &mut [u8]) -> Replied
    ensures { (replied_seen result room.new ≡ answer_text r zone line.now room.old) × (result.place ≡ text_place r zone line.now room.old) }
{
    if room.len() < 32 {
        return refused(r, Refusal::NoRoom);
    }
    let reading = line::read(line);
    let outcome = r.ask(zone, asked(reading.parsed));
    let answered = outcome.answer;
    let after = outcome.after;
    let length = put_text(answered, room);
    Replied {
        answer: answered,
        length,
        place: place_of(answered, reading, r.range_at(zone)),
        after,
    }
}

// A refusal without a reply; where the record is not sound, that refusal: 2.
fn silent(r: Record, why: Refusal) -> Replied
    ensures { result ≡ silent_of r why }
{
    if r.is_sound() {
        refused(r, why)
    } else {
        refused(r, Refusal::NotSound)
    }
}

// What a frame brings, to whoever holds its address.
fn to_holder(r: Record, address: u8, asked: Result<Command, Refusal>, room: &mut [u8]) -> Replied
    requires { 32 ≤ length room.old }
    ensures { (replied_seen result room.new ≡ frame_at r address asked room.old) × (result.place ≡ 0) }
{
    match r.find(u32::from(address)) {
        None => silent(r, Refusal::NobodyHolds),
        Some(zone) => {
            let outcome = r.ask(zone, asked);
            let answer = outcome.answer;
            let length = put_frame(address, answer, room);
            Replied {
                answer,
                length,
                place: 0,
                after: outcome.after,
            }
        }
    }
}

// A frame on the shared pair.
pub fn frame(r: Record, frame: &[u8], room: &mut [u8]) -> Replied
    ensures { (replied_seen result room.new ≡ answer_frame r frame.now room.old) × (result.place ≡ 0) }
{
    if room.len() < 32 {
        return refused(r, Refusal::NoRoom);
    }
    match frame::read(frame) {
        Framed::NoFrame => silent(r, Refusal::NoFrame),
        Framed::BadSum(address) => to_holder(r, address, Err(Refusal::Checksum), room),
        Framed::Request(address, parsed) => to_holder(r, address, asked(parsed), room),
    }
}
