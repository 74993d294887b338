// The replies: figures, and acknowledgements. Each is put at the front of a room of 32 bytes or more.
ghost use Rattle.std.specs.Prelude.{◌≡◌, ◌≤◌, length};
ghost use Rattle.card.specs.Answers.{refusal_number, number_of, values_of};
ghost use Rattle.wire.specs.Room.{Filled};
ghost use Rattle.roads.specs.Acknowledgements.{text_of, function_of, reply_to, in_text, text_reply, in_frame, frame_reply};

use card::{Answer, Refusal};

// The acknowledgements, with the function bytes that stand for them in a frame.
#[derive(Clone, Copy, PartialEq, Eq)]
pub enum Acknowledgement {
    Okay = 0x00,
    CommandError = 0x10,
    SyntaxError = 0x80,
    CommandLock = 0x08,
    TransferError = 0x20,
}

// What a refusal is answered with on the wire; most have no reply.
fn reply_to(why: Refusal) -> Option<Acknowledgement>
    ensures { result ≡ reply_to (refusal_number why) }
{
    match why {
        Refusal::Checksum => Some(Acknowledgement::TransferError),
        Refusal::Unknown => Some(Acknowledgement::CommandError),
        Refusal::Syntax | Refusal::OutOfRange => Some(Acknowledgement::SyntaxError),
        Refusal::Locked => Some(Acknowledgement::CommandLock),
        Refusal::NoRoom
        | Refusal::NotSound
        | Refusal::NoZone
        | Refusal::NoFrame
        | Refusal::NobodyHolds
        | Refusal::AddressHeld
        | Refusal::AlreadyPresent
        | Refusal::Unreadable
        | Refusal::NoRecipe
        | Refusal::StillBooked
        | Refusal::BadAmount
        | Refusal::SameZone => None,
    }
}

// ---- the text road

fn text_of(a: Acknowledgement) -> [u8; 5]
    ensures { result ≡ text_of a }
{
    match a {
        Acknowledgement::Okay => *b"QOK00",
        Acknowledgement::CommandError => *b"QFE01",
        Acknowledgement::SyntaxError => *b"QFE02",
        Acknowledgement::CommandLock => *b"QFE03",
        Acknowledgement::TransferError => *b"QFE04",
    }
}

// No reply has length 0 (in_text). Not by `map_or`: tried, and where the closure is not called, it stayed open that the room it
// holds is as it was.
fn put_in_text(reply: Option<Acknowledgement>, room: &mut [u8]) -> usize
    requires { 32 ≤ length room.old }
    ensures { Filled (in_text reply) room.old room.new result }
{
    match reply {
        None => 0,
        Some(a) => wire::copy(&text_of(a), room),
    }
}

// The reply to a line. Each road has its definitions (text_reply, frame_reply), and so its functions.
pub fn put_text(answer: Answer, room: &mut [u8]) -> usize
    requires { 32 ≤ length room.old }
    ensures { Filled (text_reply (number_of answer) (values_of answer)) room.old room.new result }
{
    match answer {
        Answer::Done => put_in_text(Some(Acknowledgement::Okay), room),
        Answer::Told(figures) => line::put_figures(b'A', figures, room),
        Answer::Refused(why) => put_in_text(reply_to(why), room),
    }
}

// ---- the frame road

fn function_of(a: Acknowledgement) -> u8
    ensures { result ≡ function_of a }
{
    a as u8
}

// As with a text: no reply has length 0 (in_frame), and `map_or` leaves the room open.
fn put_in_frame(address: u8, reply: Option<Acknowledgement>, room: &mut [u8]) -> usize
    requires { 32 ≤ length room.old }
    ensures { Filled (in_frame address reply) room.old room.new result }
{
    match reply {
        None => 0,
        Some(a) => frame::put_short(address, function_of(a), room),
    }
}

// The reply to a frame, under its address.
pub fn put_frame(address: u8, answer: Answer, room: &mut [u8]) -> usize
    requires { 32 ≤ length room.old }
    ensures { Filled (frame_reply address (number_of answer) (values_of answer)) room.old room.new result }
{
    match answer {
        Answer::Done => put_in_frame(address, Some(Acknowledgement::Okay), room),
        Answer::Told(figures) => frame::put_figures(address, 0x00, figures, room),
        Answer::Refused(why) => put_in_frame(address, reply_to(why), room),
    }
}
