// A frame read as a command to an address.
ghost use Rattle.std.specs.Prelude.{cond, Ok, Err, ◌≡◌, ◌+◌, ◌≤◌, ◌<◌, length, eqb};
ghost use Rattle.zone.specs.Table.{forms_of};
ghost use Rattle.wire.specs.Road.{write_read, command_read};
ghost use Rattle.frame.specs.Frame.{frame_road, number_at, writing, body_read, frame_read};

use crate::sums::checksum;
use wire::{Misread, Parsed};
use zone::{
    Command, DeadlineFigures, Figures, Group, LimitFigures, ReferenceFigures, SetpointFigures,
    WindowFigures,
};

// No frame; a frame whose checksum differs, with its address; a request, with its address. Three outcomes, and no Result:
// the first two are no errors of one kind, since document 01 has a number of its own for each (4 and 6), and the demands
// name all three (`frame_read`, and `request_in` of session).
#[derive(Clone, Copy)]
pub enum Framed {
    NoFrame,
    BadSum(u8),
    Request(u8, Parsed),
}

fn one(body: &[u8], at: usize) -> u32
    requires { at < length body.now }
    ensures { result ≡ number_at 1 body.now at }
{
    u32::from(body[at])
}

fn two(body: &[u8], at: usize) -> u32
    requires { at + 1 < length body.now }
    ensures { result ≡ number_at 2 body.now at }
{
    one(body, at) + 256 * one(body, at + 1)
}

// The one figure of a group that has no more.
fn single(body: &[u8]) -> Result<u32, Misread>
    ensures { result ≡ cond (eqb (length body.now) 5) (Ok (number_at 2 body.now 3)) (Err Misread.Syntax) }
{
    if body.len() != 5 {
        return Err(Misread::Syntax);
    }
    Ok(two(body, 3))
}

// The figures of a write of each group, by a function of its own, for its case and its figures: the body's length
// says which of the group's forms it is.
#[tactic(auto, unfolding(wire::specs::Road::form_read, wire::specs::Road::write_read))]
fn ahue(body: &[u8]) -> Parsed
    ensures { result ≡ write_read frame_road (forms_of Group.Ahue) body.now }
{
    let figures = match body.len() {
        8 => Figures::AhueDeadline(DeadlineFigures {
            flag: one(body, 3),
            lower: one(body, 4),
            upper: one(body, 5),
            time: two(body, 6),
        }),
        10 => Figures::AhueWindow(WindowFigures {
            flag: one(body, 3),
            lower: one(body, 4),
            upper: one(body, 5),
            begin: two(body, 6),
            end: two(body, 8),
        }),
        _ => return Err(Misread::Syntax),
    };
    Ok(Command::Write(figures))
}

#[tactic(auto, unfolding(wire::specs::Road::form_read, wire::specs::Road::write_read))]
fn hzbg(body: &[u8]) -> Parsed
    ensures { result ≡ write_read frame_road (forms_of Group.Hzbg) body.now }
{
    let time = single(body)?;
    Ok(Command::Write(Figures::HzbgLimit(LimitFigures { time })))
}

#[tactic(auto, unfolding(wire::specs::Road::form_read, wire::specs::Road::write_read))]
fn rrue(body: &[u8]) -> Parsed
    ensures { result ≡ write_read frame_road (forms_of Group.Rrue) body.now }
{
    if body.len() != 6 {
        return Err(Misread::Syntax);
    }
    Ok(Command::Write(Figures::RrueReference(ReferenceFigures {
        flag: one(body, 3),
        lower: one(body, 4),
        upper: one(body, 5),
    })))
}

#[tactic(auto, unfolding(wire::specs::Road::form_read, wire::specs::Road::write_read))]
fn solw(body: &[u8]) -> Parsed
    ensures { result ≡ write_read frame_road (forms_of Group.Solw) body.now }
{
    let setpoint = single(body)?;
    Ok(Command::Write(Figures::SolwSetpoint(SetpointFigures { setpoint })))
}

// What is no write: a read is three bytes long, and any function but 89 and 69 is unknown.
fn no_write(function: u8, group: Group, body: &[u8]) -> Parsed
    requires { function ≡ writing → ⊥ }
    ensures { result ≡ command_read frame_road function group body.now }
{
    match function {
        0x89 if body.len() == 3 => Ok(Command::Read(group)),
        0x89 => Err(Misread::Syntax),
        _ => Err(Misread::Unknown),
    }
}

// The command of the bytes that L counts. "The index byte alone names the group": document 01 has a match over the byte
// 0B, 15, 35, 70 and the rest, whose arm chooses the lengths and the places by which a write is read.
#[tactic(auto, unfolding(crate::specs::Frame::group_indexed, crate::specs::Frame::body_read))]
fn request(body: &[u8]) -> Parsed
    requires { 3 ≤ length body.now }
    ensures { result ≡ body_read body.now }
{
    let function = body[1];
    match body[2] {
        0x0B if function == 0x69 => ahue(body),
        0x0B => no_write(function, Group::Ahue, body),
        0x15 if function == 0x69 => rrue(body),
        0x15 => no_write(function, Group::Rrue, body),
        0x35 if function == 0x69 => solw(body),
        0x35 => no_write(function, Group::Solw, body),
        0x70 if function == 0x69 => hzbg(body),
        0x70 => no_write(function, Group::Hzbg, body),
        _ => Err(Misread::Unknown),
    }
}

// What a frame is: its shape first, then its checksum, then its command.
pub fn read(frame: &[u8]) -> Framed
    ensures { result ≡ frame_read frame.now }
{
    if frame.len() < 9 {
        return Framed::NoFrame;
    }
    if frame[0] != 0x68 {
        return Framed::NoFrame;
    }
    if frame[3] != 0x68 {
        return Framed::NoFrame;
    }
    if frame[1] != frame[2] {
        return Framed::NoFrame;
    }
    let l = usize::from(frame[1]);
    if frame.len() != l + 6 {
        return Framed::NoFrame;
    }
    if frame[l + 5] != 0x16 {
        return Framed::NoFrame;
    }
    let address = frame[4];
    let body = &frame[4..4 + l];
    if checksum(body) != frame[l + 4] {
        return Framed::BadSum(address);
    }
    Framed::Request(address, request(body))
}
