// The program of an operator: each line of standard input is sent to one fresh zone, and what came of it is said.
//
// What is said of a line is the business of the crate saying, and proved there. Here bytes are read and held until a
// line feed ends their line; `hear` promises that this line is the one that is answered, from the record that the line
// before left, and that what is handed to write is what is said of it. Which bytes are read, and what write does with
// those that it is handed, no contract can say.
//
// The zone's temperature range is the program's one argument. A failure is told on standard error, and the status is 0
// all the same; the launcher has one for it. That nobody reads on is no failure: the program ends in silence, with the
// status that a closed pipe's signal would have given it.
#![tactic(auto)]

ghost use Rattle.std.specs.Prelude.{take};
ghost use Rattle.cardsay.specs.Turns.{Said, Hears};

mod between;

use between::Between;
use card::Record;
use output::{Ending, ended, turns, write};
use std::env::Env;
use std::io::Read;
use std::ops::ControlFlow;
use std::process::ExitCode;

// Answers the line. If the output cannot be written, the program ends.
fn answer(rt: &(impl Print + Eprint), state: &mut Between, line: &[u8], out: &mut [u8; 1500])
    ensures { Said state.old.after line.now out.new state.new }
{
    let shown = saying::say(state.after, line, out);
    let written = write(rt, "cardsay", &out[..shown.filled]);
    state.after = shown.after;
    state.held = 0;
    state.handed = written.handed;
    state.next = written.next;
}

// One byte. Of a line that is longer than 600 bytes no more than 601 are held: it stays too long.
fn hear(
    rt: &(impl Print + Eprint),
    state: &mut Between,
    x: u8,
    line: &mut [u8; 601],
    out: &mut [u8; 1500],
)
    ensures { Hears state.old.after (take state.old.held line.old) x line.new out.new state.new }
{
    let held = state.held;
    if x == b'\n' {
        return answer(rt, state, &line[..held], out);
    }
    state.handed = 0;
    if held == 601 {
        return;
    }
    line[held] = x;
    state.held = held + 1;
}

// The bytes of a block, one after the other, as long as the program goes on.
fn hear_all(
    rt: &(impl Print + Eprint),
    state: &mut Between,
    block: &[u8],
    line: &mut [u8; 601],
    out: &mut [u8; 1500],
) {
    for x in block {
        if state.next.is_break() {
            break;
        }
        hear(rt, state, *x, line, out);
    }
}

// At the end of the input a line under way is answered too.
fn finish(rt: &(impl Print + Eprint), state: &mut Between, line: &[u8; 601], out: &mut [u8; 1500]) {
    let held = state.held;
    if 0 < held {
        answer(rt, state, &line[..held], out);
    }
    state.next = ControlFlow::Break(ended(state.next));
}

// One block. A read that fails ends the program, and the line under way is not answered: it may be half of one.
fn turn(
    rt: &(impl Print + Eprint),
    input: &mut impl Read,
    state: &mut Between,
    line: &mut [u8; 601],
    out: &mut [u8; 1500],
) {
    let mut block = [0u8; 4096];
    let Ok(count) = input.read(&mut block) else {
        let _ = rt.eprintln("cardsay: the input cannot be read");
        state.next = ControlFlow::Break(Ending::Heard);
        return;
    };
    if count == 0 {
        return finish(rt, state, line, out);
    }
    hear_all(rt, state, &block[..count], line, out);
}

// Block after block, to the end of the input, over buffers and a turn of the program's own.
fn run(rt: &(impl Print + Eprint), input: &mut impl Read, given: Record) -> ExitCode {
    let mut line = [0u8; 601];
    let mut out = [0u8; 1500];
    let start = Between {
        after: given,
        held: 0,
        handed: 0,
        next: ControlFlow::Continue(()),
    };
    let last = turns(
        start,
        |state| state.next.is_continue(),
        |mut state| {
            turn(rt, input, &mut state, &mut line, &mut out);
            state
        },
    );
    ExitCode::from(ended(last.next))
}

// The temperature range that a word names.
fn range_named(word: &[u8]) -> Option<u32> {
    match word {
        b"300" => Some(300),
        b"500" => Some(500),
        _ => None,
    }
}

// The temperature range that the program's argument names.
fn range_given(rt: &impl Env) -> Option<u32> {
    let mut word = [0u8; 8];
    let n = rt.arg(1, &mut word).ok()?;
    range_named(&word[..n])
}

fn main(rt: HostRuntime) -> ExitCode {
    let Some(range) = range_given(&rt) else {
        let _ = rt.eprintln("cardsay: the temperature range is 300 or 500");
        return ExitCode::SUCCESS;
    };
    let given = Record::empty().add(0, 1, range).after;
    run(&rt, &mut rt.stdin(), given)
}
