// The program that loads a recipe: a log on standard input sets the card up, and the recipe is the file that the
// program's one argument names.
//
// What the log does to the record is the journal's business, and what is said of the recipe that of the crate saying; both
// are proved there. Here the log is read in blocks, each handed to the journal behind what it held of the block before, and
// its answers are not written: that each block stands behind what was held, and is answered from the record just handed
// back, is promised by `turn`. That what is handed to write is what is said of the recipe, all of it and nothing else, is
// promised by `load`. Which bytes are read, and what write does with those that it is handed, no contract can say.
//
// A failure is told on standard error, and the status is 0 all the same; the launcher has one for it. Where the log or the
// recipe cannot be read, or the recipe is too long, nothing is loaded. That nobody reads on is no failure: the program
// ends in silence, with the status that a closed pipe's signal would have given it.
#![tactic(auto)]

ghost use Rattle.std.specs.Prelude.{◌≡◌, ◌≤◌, IfSome, length, take};
ghost use Rattle.saying.specs.Loading.{load_said};
ghost use Rattle.cardload.specs.Turns.{Leaves, Turned};

mod between;

use between::{Between, Log};
use card::Record;
use output::{Written, ended, turns, write};
use std::env::Env;
use std::fs::File;
use std::io::Read;
use std::process::ExitCode;
use std::rt::Files;

// How much of the log is worked on at once.
const BUFFER: usize = 16384;

// The log's answers have room as in the log program: it is what the journal's `feed` requires, of which `output` knows nothing.
const ANSWERS: usize = 8 * BUFFER + 40;

// Works on what the buffer holds up to `end`. The answers, in `out`, are left there.
fn feed(
    r: Record,
    buffer: &mut [u8; BUFFER],
    end: usize,
    out: &mut [u8; ANSWERS],
    log: Log,
) -> Between
    requires { end ≤ BUFFER }
    ensures leaves { Leaves r (take end buffer.old) buffer.new result }
    ensures log_value { result.log ≡ log }
{
    let kept = journal::feed(r, buffer, end, out);
    Between {
        after: kept.after,
        held: kept.held,
        log,
    }
}

// One block of the log. At its end the last line gets the line feed that it lacks. The log program's turn differs by its clause.
fn turn(
    input: &mut impl Read,
    before: Between,
    buffer: &mut [u8; BUFFER],
    out: &mut [u8; ANSWERS],
) -> Between
    ensures { Turned before.after (take before.held buffer.old) buffer.new result }
{
    let after = before.after;
    let held = before.held;
    let Ok(count) = input.read(&mut buffer[held..]) else {
        return Between {
            after,
            held,
            log: Log::Failed,
        };
    };
    if count == 0 {
        let end = journal::close(buffer, held);
        return feed(after, buffer, end, out, Log::Ended);
    }
    feed(after, buffer, held + count, out, Log::More)
}

// The record that the whole log leaves, from the empty one; none where it cannot be read.
fn set_up(input: &mut impl Read) -> Option<Record> {
    let mut buffer = [0u8; BUFFER];
    let mut out = [0u8; ANSWERS];
    let start = Between {
        after: Record::empty(),
        held: 0,
        log: Log::More,
    };
    let last = turns(
        start,
        |state| state.log == Log::More,
        |state| turn(input, state, &mut buffer, &mut out),
    );
    match last.log {
        Log::More | Log::Ended => Some(last.after),
        Log::Failed => None,
    }
}

// Reads a file to its end, or until there is no more room; none where a read fails.
fn take_in<'a>(file: &mut impl Read, into: &'a mut [u8]) -> Option<&'a [u8]>
    ensures { IfSome result (λ part. length part.now ≤ length into.old) }
{
    let mut at: usize = 0;
    // A read takes as many bytes as it likes: no iterator counts them.
    while at < into.len() {
        let count = file.read(&mut into[at..]).ok()?;
        if count == 0 {
            break;
        }
        at += count;
    }
    Some(&into[..at])
}

// Opens the file of that name, which has to be text, and reads it.
fn take_from<'a>(rt: &impl Files, name: &[u8], into: &'a mut [u8]) -> Option<&'a [u8]>
    ensures { IfSome result (λ part. length part.now ≤ length into.old) }
{
    let path = str::from_utf8(name).ok()?;
    let mut file = File::open(rt, path).ok()?;
    take_in(&mut file, into)
}

// Reads the file that the argument names.
fn take_named<'a>(rt: &(impl Env + Files), into: &'a mut [u8]) -> Option<&'a [u8]>
    ensures { IfSome result (λ part. length part.now ≤ length into.old) }
{
    let mut name = [0u8; 4096];
    let n = rt.arg(1, &mut name).ok()?;
    take_from(rt, &name[..n], into)
}

// Loads the recipe into the record, and writes what came of it.
fn load(
    rt: &(impl Print + Eprint),
    r: Record,
    recipe: &[u8],
    room: &mut [u8],
    out: &mut [u8; 8400],
) -> Written
    requires { length recipe.now ≤ 4096 }
    ensures { take result.handed out.new ≡ load_said r recipe.now room.old }
{
    let loaded = recipes::load(r, recipe, room);
    let filled = saying::say_loaded(loaded, recipe, room, out);
    write(rt, "cardload", &out[..filled])
}

// Tells what keeps the recipe from being loaded.
fn refuse(rt: &impl Eprint, why: &str) -> ExitCode {
    let _ = rt.eprintln(why);
    ExitCode::SUCCESS
}

// The recipe is read first: where it cannot be, nobody has to wait for the log. One that is too long has one byte more
// than 4,096 at least. The replies have room of 32 bytes for each of as many lines as 4,096 bytes can have, so that too
// many lines are told as such.
fn run(rt: &(impl Env + Files + Print + Eprint), input: &mut impl Read) -> ExitCode {
    let mut read = [0u8; 4097];
    let Some(recipe) = take_named(rt, &mut read) else {
        return refuse(rt, "cardload: the recipe cannot be read");
    };
    if 4096 < recipe.len() {
        return refuse(rt, "cardload: the recipe has more than 4,096 bytes");
    }
    let Some(r) = set_up(input) else {
        return refuse(rt, "cardload: the log cannot be read");
    };
    let mut room = [0u8; 131072];
    let mut out = [0u8; 8400];
    let written = load(rt, r, recipe, &mut room, &mut out);
    ExitCode::from(ended(written.next))
}

fn main(rt: HostRuntime) -> ExitCode {
    run(&rt, &mut rt.stdin())
}
