// The line or the frame of a command, into a lent room.
ghost use Rattle.std.specs.Prelude.{◌≡◌};
ghost use Rattle.roads.specs.Calls.{composed_seen, composed_line, composed_frame};

use card::{Answer, Refusal};
use zone::Command;

#[derive(Clone, Copy)]
pub struct Composed {
    pub answer: Answer,
    // 0 where it is refused, as document 01 has it
    pub length: usize,
}

// A composing that is refused: no record is handed back, so this is not the `refused` of calls.
fn refused(why: Refusal) -> Composed
    ensures { result ≡ record { answer = Answer.Refused why; length = 0 } }
{
    Composed {
        answer: Answer::Refused(why),
        length: 0,
    }
}

fn done(length: usize) -> Composed
    ensures { result ≡ record { answer = Answer.Done; length = length } }
{
    Composed {
        answer: Answer::Done,
        length,
    }
}

// The two calls share their shape. One function over a closure that puts was tried: `returns` of both stayed open, and what it
// promises (three clauses over FnOnceReturnsAtMut) is longer than what they share.

// The line of a command.
#[tactic(auto, unfolding(crate::specs::Calls::composed_line))]
pub fn compose_line(command: Command, room: &mut [u8]) -> Composed
    ensures { composed_seen result room.new ≡ composed_line command room.old }
{
    if room.len() < 32 {
        return refused(Refusal::NoRoom);
    }
    match command {
        Command::Read(group) => done(line::put_read(group, room)),
        Command::Write(figures) => {
            if line::carries(figures) {
                done(line::put_figures(b'S', figures, room))
            } else {
                refused(Refusal::OutOfRange)
            }
        }
    }
}

// The frame of a command to an address.
#[tactic(auto, unfolding(crate::specs::Calls::composed_frame))]
pub fn compose_frame(address: u32, command: Command, room: &mut [u8]) -> Composed
    ensures { composed_seen result room.new ≡ composed_frame address command room.old }
{
    if room.len() < 32 {
        return refused(Refusal::NoRoom);
    }
    if !zone::address_in_range(address) {
        return refused(Refusal::OutOfRange);
    }
    // an address in range is a byte: `try_from` would have a refusal that never comes
    let byte = address as u8;
    match command {
        Command::Read(group) => done(frame::put_read(byte, group, room)),
        Command::Write(figures) => {
            if frame::carries(figures) {
                done(frame::put_figures(byte, 0x69, figures, room))
            } else {
                refused(Refusal::OutOfRange)
            }
        }
    }
}
