// What the two roads have in common: what bytes are found to be (Parsed), bytes put into a lent room (copy, put, append),
// and whether a road carries figures (carries).
//
// specs/Road.antt says once for both roads how a command stands in bytes; a road adds how wide a
// figure is and how it is written and read. proofs/Layouts.antt proves once for both that what was
// written is read, and that nothing else is.
#![tactic(auto)]

ghost use Rattle.std.specs.Prelude.{ℕ, ◌≡◌, ◌+◌, ◌≤◌, List, ◌++◌, length};
ghost use Rattle.zone.specs.Table.{Kind};
ghost use Rattle.wire.specs.Road.{Road, carries};
ghost use Rattle.wire.specs.Room.{Filled, placed};

use zone::{Command, Figures};

// Why a line, or the body of a frame, is no command: an unknown one, or a syntax error.
#[derive(Clone, Copy)]
pub enum Misread {
    Unknown,
    Syntax,
}

// What a line, or the body of a frame, is found to be.
pub type Parsed = Result<Command, Misread>;

// Copies src to the front of the room, and tells how many bytes that are.
pub fn copy(src: &[u8], room: &mut [u8]) -> usize
    requires { length src.now ≤ length room.old }
    ensures { Filled src.now room.old room.new result }
{
    let n = src.len();
    room[..n].copy_from_slice(src);
    n
}

// Puts src into the room from index `at` on.
pub fn put(src: &[u8], room: &mut [u8], at: usize)
    requires { at + length src.now ≤ length room.old }
    ensures { room.new ≡ placed room.old at src.now }
{
    copy(src, &mut room[at..]);
}

// Puts src behind the `at` bytes that fill the front of the room, and tells how many bytes fill it then.
pub fn append(src: &[u8], room: &mut [u8], at: usize) -> usize
    requires { at + length src.now ≤ length room.old }
    ensures count { result ≡ at + length src.now }
    ensures room_after { room.new ≡ placed room.old at src.now }
    ensures behind { (first before : List ℕ) → Filled first before room.old at → Filled (first ++ src.now) before room.new result }
{
    put(src, room, at);
    at + src.len()
}

// The figures fit a road that carries flags below FLAG, limits below LIMIT, and times and setpoints below TIME.
pub fn carries<const FLAG: u32, const LIMIT: u32, const TIME: u32>(figures: Figures) -> bool
    ensures { (road : Road) → road.bound Kind.flag ≡ FLAG → road.bound Kind.limit ≡ LIMIT → road.bound Kind.time ≡ TIME → result ≡ carries road figures }
{
    match figures {
        Figures::AhueDeadline(f) => {
            (f.flag < FLAG) & (f.lower < LIMIT) & (f.upper < LIMIT) & (f.time < TIME)
        }
        Figures::AhueWindow(f) => {
            (f.flag < FLAG)
                & (f.lower < LIMIT)
                & (f.upper < LIMIT)
                & (f.begin < TIME)
                & (f.end < TIME)
        }
        Figures::HzbgLimit(f) => f.time < TIME,
        Figures::RrueReference(f) => (f.flag < FLAG) & (f.lower < LIMIT) & (f.upper < LIMIT),
        Figures::SolwSetpoint(f) => f.setpoint < TIME,
    }
}
