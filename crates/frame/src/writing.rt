// A command written as its frame, at the front of a lent room of 32 bytes or more. The room stays a slice: besides the
// public functions, `put_frame` alone asks for its length.
ghost use Rattle.std.specs.Prelude.{◌≡◌, ◌∷◌, ◌/◌, ◌%◌, ◌≤◌, length};
ghost use Rattle.zone.specs.declared.figures.Command.TheVariants as command;
ghost use Rattle.zone.specs.Table as table;
ghost use Rattle.wire.specs.Road as road;
ghost use Rattle.wire.specs.Room.{Filled};
ghost use Rattle.frame.specs.Frame.{bytes_of, frame_road, framed, body_with, frame_of, short_frame};

use crate::sums::checksum;
use zone::{Figures, Group};

// The frame of the bytes that L counts.
fn put_frame(body: &[u8], room: &mut [u8]) -> usize
    requires { (length body.now ≤ 26) × (32 ≤ length room.old) }
    ensures { Filled (framed body.now) room.old room.new result }
{
    let l = body.len() as u8;
    let at = wire::copy(&[0x68, l, l, 0x68], room);
    let at = wire::append(body, room, at);
    wire::append(&[checksum(body), 0x16], room, at)
}

// The short frame of an address and a function.
pub fn put_short(address: u8, function: u8, room: &mut [u8]) -> usize
    requires { 32 ≤ length room.old }
    ensures { Filled (short_frame address function) room.old room.new result }
{
    let sum = checksum(&[address, function]);
    wire::copy(&[0x10, address, function, sum, 0x16], room)
}

// The low byte of a number, and the one above it, each by its name.
fn low(n: u32) -> u8
    ensures { result ≡ n % 256 }
{
    let [low, ..] = n.to_le_bytes();
    low
}

fn high(n: u32) -> u8
    ensures { result ≡ n / 256 % 256 }
{
    let [_, high, ..] = n.to_le_bytes();
    high
}

// The body of a group with one figure.
fn single(address: u8, function: u8, index: u8, n: u32) -> [u8; 5]
    ensures { result ≡ address ∷ function ∷ index ∷ bytes_of 2 n }
{
    [address, function, index, low(n), high(n)]
}

// Neither this nor its way back is a From: Group is a type of `zone`, which knows no frame.
fn index(group: Group) -> u8
    ensures { result ≡ table.index group }
{
    match group {
        Group::Ahue => 0x0B,
        Group::Hzbg => 0x70,
        Group::Rrue => 0x15,
        Group::Solw => 0x35,
    }
}

// The frame of figures, with the function of a write or of a reply. Bodies whose length stands fast are written faster
// than one that is put together in parts, as a line is.
pub fn put_figures(address: u8, function: u8, figures: Figures, room: &mut [u8]) -> usize
    requires { 32 ≤ length room.old }
    ensures { Filled (framed (body_with address function figures)) room.old room.new result }
{
    let index = index(figures.group());
    match figures {
        Figures::AhueDeadline(f) => {
            let body = [
                address,
                function,
                index,
                low(f.flag),
                low(f.lower),
                low(f.upper),
                low(f.time),
                high(f.time),
            ];
            put_frame(&body, room)
        }
        Figures::AhueWindow(f) => {
            let body = [
                address,
                function,
                index,
                low(f.flag),
                low(f.lower),
                low(f.upper),
                low(f.begin),
                high(f.begin),
                low(f.end),
                high(f.end),
            ];
            put_frame(&body, room)
        }
        Figures::HzbgLimit(f) => { put_frame(&single(address, function, index, f.time), room) }
        Figures::RrueReference(f) => {
            let body = [
                address,
                function,
                index,
                low(f.flag),
                low(f.lower),
                low(f.upper),
            ];
            put_frame(&body, room)
        }
        Figures::SolwSetpoint(f) => {
            put_frame(&single(address, function, index, f.setpoint), room)
        }
    }
}

// The frame of a read.
pub fn put_read(address: u8, group: Group, room: &mut [u8]) -> usize
    requires { 32 ≤ length room.old }
    ensures { Filled (frame_of address (command.Read group)) room.old room.new result }
{
    put_frame(&[address, 0x89, index(group)], room)
}

// The figures fit their bytes.
pub fn carries(figures: Figures) -> bool
    ensures { result ≡ road.carries frame_road figures }
{
    wire::carries::<256, 256, 65536>(figures)
}
