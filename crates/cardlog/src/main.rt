// The log program: reads a log on standard input to its end, and writes a line for each of its lines.
//
// What is written is the journal's business, and proved there. Here blocks are read, handed to
// the journal behind what it held of the block before, and its output is written. That each block
// stands behind what was held, and is answered from the record just handed back, is promised by
// `turn`, and so is that what is handed to write is the output for it, all of it and nothing else.
// Which bytes are read, and what write does with those that it is handed, no contract can say:
// docs/PROMISES.md says how that is tested.
//
// A failure is told on standard error, and the status is 0 all the same; the launcher has one for it. That nobody reads
// on is no failure: the program ends in silence, with the status that a closed pipe's signal would have given it.
#![tactic(auto)]

ghost use Rattle.std.specs.Prelude.{◌≡◌, false, ◌≤◌, length, take};
ghost use Rattle.output.specs.Output.{going};
ghost use Rattle.cardlog.specs.Turns.{Leaves, Turned};

mod between;

use between::Between;
use card::Record;
use output::{Ending, ended, turns, write};
use std::io::Read;
use std::ops::ControlFlow;
use std::process::ExitCode;

// How much of the input is worked on at once.
const BUFFER: usize = 16384;

// The output has room for 8 bytes for each byte of the buffer, and 40 more: a line yields at most 8 bytes for each
// of its own and its line feed, and 40 are asked for before one is written. The program that loads a recipe has the same two
// numbers: they are the journal's business (what `feed` requires), of which `output`, what the programs share, knows nothing.
const OUT: usize = 8 * BUFFER + 40;

// How the reading of the log stands: more of it may come, or it has ended. A read that failed is no case here: it ends
// the turn at once.
#[derive(Clone, Copy, PartialEq, Eq)]
enum Log {
    More,
    Ended,
}

// The program goes on where more may come and the output was written.
fn goes_on(log: Log, written: ControlFlow<Ending>) -> ControlFlow<Ending>
    ensures more { log ≡ Log.More → going result ≡ going written }
    ensures ended { log ≡ Log.Ended → going result ≡ false }
{
    match log {
        Log::More => written,
        Log::Ended => ControlFlow::Break(ended(written)),
    }
}

// Works on what the buffer holds up to `end`, and writes the output. If that fails, the program ends.
fn answer(
    rt: &(impl Print + Eprint),
    r: Record,
    buffer: &mut [u8; BUFFER],
    end: usize,
    out: &mut [u8; OUT],
    log: Log,
) -> Between
    requires { end ≤ BUFFER }
    ensures leaves { Leaves r (take end buffer.old) buffer.new out.new result }
    ensures ended { log ≡ Log.Ended → going result.next ≡ false }
{
    let kept = journal::feed(r, buffer, end, out);
    let written = write(rt, "cardlog", &out[..kept.filled]);
    Between {
        after: kept.after,
        held: kept.held,
        handed: written.handed,
        next: goes_on(log, written.next),
    }
}

// One block. A read that fails ends the program, and the line under way is not answered: it may be half of one. The turn of
// the program that loads a recipe differs by its clause: Turned here speaks of the output, and there of how the log stands.
fn turn(
    rt: &(impl Print + Eprint),
    input: &mut impl Read,
    before: Between,
    buffer: &mut [u8; BUFFER],
    out: &mut [u8; OUT],
) -> Between
    ensures { Turned before.after (take before.held buffer.old) buffer.new out.new result }
{
    let r = before.after;
    let held = before.held;
    let Ok(count) = input.read(&mut buffer[held..]) else {
        let _ = rt.eprintln("cardlog: the input cannot be read");
        return Between {
            after: r,
            held,
            handed: 0,
            next: ControlFlow::Break(Ending::Heard),
        };
    };
    if count == 0 {
        let end = journal::close(buffer, held);
        return answer(rt, r, buffer, end, out, Log::Ended);
    }
    answer(rt, r, buffer, held + count, out, Log::More)
}

// Block after block, to the end of the input, over buffers and a turn of the program's own.
fn run(rt: &(impl Print + Eprint), input: &mut impl Read) -> ExitCode {
    let mut buffer = [0u8; BUFFER];
    let mut out = [0u8; OUT];
    let start = Between {
        after: Record::empty(),
        held: 0,
        handed: 0,
        next: ControlFlow::Continue(()),
    };
    let last = turns(
        start,
        |state| state.next.is_continue(),
        |state| turn(rt, input, state, &mut buffer, &mut out),
    );
    ExitCode::from(ended(last.next))
}

fn main(rt: HostRuntime) -> ExitCode {
    run(&rt, &mut rt.stdin())
}
