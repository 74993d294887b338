// A command written as its line, at the front of a lent room of 32 bytes or more. The room stays a slice: besides the
// public functions, `put_head` alone asks for its length.
ghost use Rattle.std.specs.Prelude.{◌≡◌, ◌+◌, ◌/◌, ◌%◌, ◌≤◌, ◌<◌, ◌∷◌, ◌++◌, length};
ghost use Rattle.zone.specs.declared.figures.Command.TheVariants as command;
ghost use Rattle.zone.specs.Table as table;
ghost use Rattle.wire.specs.Road as road;
ghost use Rattle.wire.specs.Room.{Filled};
ghost use Rattle.line.specs.Line.{digits_for, text_road, line_with, line_of};

use zone::{Figures, Group};

// The digit of n at a power of ten.
fn digit(n: u32, ten: u32) -> u8
    requires { 0 < ten }
    ensures { result ≡ 48 + n / ten % 10 }
{
    b'0' + ((n / ten % 10) as u8)
}

// A figure of three digits, behind its space.
fn figure(n: u32) -> [u8; 4]
    ensures { result ≡ 32 ∷ digits_for 3 n }
{
    [b' ', digit(n, 100), digit(n, 10), digit(n, 1)]
}

// Flag, lower and upper limit, with which three of the rows begin, each behind its space.
fn watched(flag: u32, lower: u32, upper: u32) -> [u8; 10]
    ensures { result ≡ 32 ∷ (digits_for 1 flag ++ (32 ∷ (digits_for 3 lower ++ (32 ∷ digits_for 3 upper)))) }
{
    [
        b' ',
        digit(flag, 1),
        b' ',
        digit(lower, 100),
        digit(lower, 10),
        digit(lower, 1),
        b' ',
        digit(upper, 100),
        digit(upper, 10),
        digit(upper, 1),
    ]
}

fn name(group: Group) -> &'static [u8; 4]
    ensures { result.now ≡ table.name group }
{
    match group {
        Group::Ahue => b"AHUE",
        Group::Hzbg => b"HZBG",
        Group::Rrue => b"RRUE",
        Group::Solw => b"SOLW",
    }
}

// A letter and a name, with which each line begins.
fn put_head(letter: u8, group: Group, room: &mut [u8]) -> usize
    requires { 32 ≤ length room.old }
    ensures count { result ≡ 5 }
    ensures head { Filled (letter ∷ table.name group) room.old room.new result }
{
    let at = wire::copy(&[letter], room);
    wire::append(name(group), room, at)
}

// The line of figures, with the letter of a write or of a reply.
pub fn put_figures(letter: u8, figures: Figures, room: &mut [u8]) -> usize
    requires { 32 ≤ length room.old }
    ensures { Filled (line_with letter figures) room.old room.new result }
{
    let at = put_head(letter, figures.group(), room);
    match figures {
        Figures::AhueDeadline(f) => {
            let at = wire::append(&watched(f.flag, f.lower, f.upper), room, at);
            wire::append(&figure(f.time), room, at)
        }
        Figures::AhueWindow(f) => {
            let at = wire::append(&watched(f.flag, f.lower, f.upper), room, at);
            let at = wire::append(&figure(f.begin), room, at);
            wire::append(&figure(f.end), room, at)
        }
        Figures::HzbgLimit(f) => { wire::append(&figure(f.time), room, at) }
        Figures::RrueReference(f) => { wire::append(&watched(f.flag, f.lower, f.upper), room, at) }
        Figures::SolwSetpoint(f) => { wire::append(&figure(f.setpoint), room, at) }
    }
}

// The line of a read.
pub fn put_read(group: Group, room: &mut [u8]) -> usize
    requires { 32 ≤ length room.old }
    ensures { Filled (line_of (command.Read group)) room.old room.new result }
{
    put_head(b'L', group, room)
}

// The figures fit their digits.
pub fn carries(figures: Figures) -> bool
    ensures { result ≡ road.carries text_road figures }
{
    wire::carries::<10, 1000, 1000>(figures)
}
