// A line read as a command, or found wrong at one of its bytes.
ghost use Rattle.std.specs.Prelude.{◌≡◌, length};
ghost use Rattle.zone.specs.Table.{Form};
ghost use Rattle.line.specs.Inner.{watched_of, whole_of, form_walked, write_walked};
ghost use Rattle.line.specs.Inner as steps;
ghost use Rattle.line.specs.Line.{group_named, line_read};
ghost use Rattle.line.specs.Places.{told, form_for, wrong_in, out_of, out_in};

use crate::fields::figure;
use wire::{Misread, Parsed};
use zone::{
    Command, DeadlineFigures, Figures, Group, LimitFigures, ReferenceFigures, SetpointFigures,
    WindowFigures,
};

// What a line is found to be, and the offset of what is wrong in it: 0 unless it is a syntax error.
#[derive(Clone, Copy)]
pub struct Reading {
    pub parsed: Parsed,
    // 0, and no Option: the answer to a line has it as a number (text_place of roads)
    pub place: usize,
}

#[tactic(auto, using(crate::proofs::Same::none_shorter, crate::proofs::Same::none_longer), unfolding(crate::specs::Line::group_named, crate::specs::Line::same))]
pub fn named(part: &[u8]) -> Option<Group>
    ensures { result ≡ group_named part.now }
{
    match part {
        b"AHUE" => Some(Group::Ahue),
        b"HZBG" => Some(Group::Hzbg),
        b"RRUE" => Some(Group::Rrue),
        b"SOLW" => Some(Group::Solw),
        _ => None,
    }
}

// Flag, lower and upper limit, with which three of the rows begin; or where one of them is wrong.
#[tactic(auto, unfolding(crate::specs::Inner::watched_of))]
fn watched(line: &[u8]) -> Result<(u32, u32, u32), usize>
    ensures { result ≡ watched_of line.now }
{
    let flag = figure(line, 5, 1)?;
    let lower = figure(line, 7, 3)?;
    let upper = figure(line, 11, 3)?;
    Ok((flag, lower, upper))
}

// All figures of a row, if the line ends behind them; a row's line has that length.
fn whole(line: &[u8], length: usize, figures: Figures) -> Result<Figures, usize>
    ensures { result ≡ whole_of line.now length figures }
{
    if line.len() == length {
        Ok(figures)
    } else {
        Err(length)
    }
}

// Each form is read by a function of its own, for its case and its figures; `watched`, `figure` and `whole` are shared.
#[tactic(auto, using(crate::proofs::Three::watched_wrong), unfolding(crate::specs::Inner::form_walked))]
fn deadline(line: &[u8]) -> Result<Figures, usize>
    ensures { result ≡ form_walked Form.deadline line.now }
{
    let (flag, lower, upper) = watched(line)?;
    let time = figure(line, 15, 3)?;
    whole(
        line,
        19,
        Figures::AhueDeadline(DeadlineFigures {
            flag,
            lower,
            upper,
            time,
        }),
    )
}

#[tactic(auto, using(crate::proofs::Three::watched_wrong), unfolding(crate::specs::Inner::form_walked))]
fn window(line: &[u8]) -> Result<Figures, usize>
    ensures { result ≡ form_walked Form.window line.now }
{
    let (flag, lower, upper) = watched(line)?;
    let begin = figure(line, 15, 3)?;
    let end = figure(line, 19, 3)?;
    whole(
        line,
        23,
        Figures::AhueWindow(WindowFigures {
            flag,
            lower,
            upper,
            begin,
            end,
        }),
    )
}

#[tactic(auto, unfolding(crate::specs::Inner::form_walked))]
fn heating_limit(line: &[u8]) -> Result<Figures, usize>
    ensures { result ≡ form_walked Form.hzbg line.now }
{
    let time = figure(line, 5, 3)?;
    whole(line, 9, Figures::HzbgLimit(LimitFigures { time }))
}

#[tactic(auto, using(crate::proofs::Three::watched_wrong), unfolding(crate::specs::Inner::form_walked))]
fn reference(line: &[u8]) -> Result<Figures, usize>
    ensures { result ≡ form_walked Form.rrue line.now }
{
    let (flag, lower, upper) = watched(line)?;
    whole(
        line,
        15,
        Figures::RrueReference(ReferenceFigures { flag, lower, upper }),
    )
}

#[tactic(auto, unfolding(crate::specs::Inner::form_walked))]
fn setpoint(line: &[u8]) -> Result<Figures, usize>
    ensures { result ≡ form_walked Form.solw line.now }
{
    let setpoint = figure(line, 5, 3)?;
    whole(line, 9, Figures::SolwSetpoint(SetpointFigures { setpoint }))
}

// The figures of a write, or where the line is wrong: of AHUE's two forms the line's length says which it
// is read as.
fn written(group: Group, line: &[u8]) -> Result<Figures, usize>
    ensures { result ≡ form_walked (form_for group (length line.now)) line.now }
{
    match group {
        Group::Ahue => {
            if 19 < line.len() {
                window(line)
            } else {
                deadline(line)
            }
        }
        Group::Hzbg => heating_limit(line),
        Group::Rrue => reference(line),
        Group::Solw => setpoint(line),
    }
}

// What comes of a line that is no syntax error.
fn found(parsed: Parsed) -> Reading
    ensures { result ≡ record { parsed = parsed; place = 0 } }
{
    Reading { parsed, place: 0 }
}

// A syntax error at that offset.
fn misread(place: usize) -> Reading
    ensures { result ≡ steps.misread place }
{
    Reading {
        parsed: Err(Misread::Syntax),
        place,
    }
}

// A write: its figures, or a syntax error.
fn write(group: Group, line: &[u8]) -> Reading
    ensures { result ≡ write_walked (form_walked (form_for group (length line.now)) line.now) }
{
    match written(group, line) {
        Ok(figures) => found(Ok(Command::Write(figures))),
        Err(place) => misread(place),
    }
}

// The command that a line is, or why it is none and where it is wrong.
pub fn read(line: &[u8]) -> Reading
    ensures { result ≡ record { parsed = line_read line.now; place = told (wrong_in line.now) } }
{
    if line.len() < 5 {
        return found(Err(Misread::Unknown));
    }
    let Some(group) = named(&line[1..5]) else {
        return found(Err(Misread::Unknown));
    };
    let letter = line[0];
    match letter {
        b'L' => {
            if line.len() == 5 {
                found(Ok(Command::Read(group)))
            } else {
                misread(5)
            }
        }
        b'S' => write(group, line),
        _ => found(Err(Misread::Unknown)),
    }
}

// Where the first figure out of its range starts, in the line of those figures, or the end of a window
// that does not open before it closes; 0, as `told` has it, if nothing is out of range.
fn first_out(figures: Figures, range: u32) -> usize
    ensures { result ≡ told (out_of range figures) }
{
    match figures.fits(range).iter().position(|fit| !*fit) {
        Some(i) => [6, 8, 12, 16, 20][i],
        None if figures.opens() => 0,
        None => 20,
    }
}

// The same of a line that was read: only a write has figures, and else it is 0, as `told` has it.
pub fn out_at(parsed: Parsed, range: u32) -> usize
    ensures { result ≡ told (out_in range parsed) }
{
    match parsed {
        Ok(Command::Write(figures)) => first_out(figures, range),
        Ok(Command::Read(_)) | Err(_) => 0,
    }
}
