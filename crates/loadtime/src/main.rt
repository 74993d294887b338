// The program that is timed for recipes: a card of sixteen fresh zones gets a recipe so many times over, loaded whole
// or its lines sent singly, and the room with the last replies is written.
//
// The first line of its input is how often, at most 99999, a tab, and W for whole or another byte for singly; the rest is the
// recipe, of at most 64 lines. It promises nothing: what is timed is proved in the crates below, and bench/speed.sh
// compares what is written with what a program in C writes. All that a call hands back is used, so that none of it can
// be left out: the record by the next call, the replies by the last write, the lengths by the room's last byte.
#![tactic(auto)]

use card::Record;
use std::io::Read;
use texts::zone_at;

// The record, and what has become of the lengths of all replies so far: each is used, and none has to be small.
#[derive(Clone, Copy)]
struct Sent {
    after: Record,
    mixed: usize,
}

// Sixteen fresh zones, with the addresses 1 to 16.
fn full() -> Record {
    let mut r = Record::empty();
    for zone in 0..16usize {
        r = r.add(zone, zone as u32 + 1, 300).after;
    }
    r
}

// The recipe by one call.
fn whole(before: Sent, recipe: &[u8], room: &mut [u8]) -> Sent {
    let loaded = recipes::load(before.after, recipe, room);
    Sent {
        after: loaded.after,
        mixed: loaded
            .lengths
            .iter()
            .fold(before.mixed, |mixed, length| mixed ^ *length),
    }
}

// One line by a call of its own.
fn send(before: Sent, line: &[u8], room: &mut [u8]) -> Sent {
    let Some((zone, start)) = zone_at(line, 0) else {
        return before;
    };
    let replied = roads::text(before.after, zone, &line[start..], room);
    Sent {
        after: replied.after,
        mixed: before.mixed ^ replied.length,
    }
}

// The recipe's lines, each by a call of its own, with the replies where `load` puts them.
fn singly(before: Sent, recipe: &[u8], room: &mut [u8]) -> Sent {
    let mut sent = before;
    let lines = recipe.split_inclusive(|x| *x == b'\n');
    for (line, place) in lines.zip(room.chunks_exact_mut(32)) {
        sent = send(sent, line.strip_suffix(b"\n").unwrap_or(line), place);
    }
    sent
}

// So many rounds, from sixteen fresh zones.
fn rounds<F: FnMut(Sent) -> Sent>(count: usize, mut round: F) -> usize
    requires { F.IsAlwaysCallable round }
{
    let mut sent = Sent {
        after: full(),
        mixed: 0,
    };
    for _ in 0..count {
        sent = round(sent);
    }
    sent.mixed
}

// What the first line says, done with the rest: W is the recipe whole, anything else singly. No reply is 32 bytes long:
// the last byte of the room is free.
fn do_as_told(rt: &(impl Print + Eprint), input: &[u8], room: &mut [u8; 2048]) {
    let Some((count, start)) = zone_at(input, 0) else {
        let _ = rt.eprintln("loadtime: the first line has no number");
        return;
    };
    let [kind, _, recipe @ ..] = &input[start..] else {
        let _ = rt.eprintln("loadtime: the first line is cut off");
        return;
    };
    let mixed = match *kind {
        b'W' => rounds(count, |sent| whole(sent, recipe, room)),
        _ => rounds(count, |sent| singly(sent, recipe, room)),
    };
    room[2047] = (mixed % 256) as u8;
    let _ = rt.write_all(room);
}

// One read is enough: the input is a file, and short; one that fails gives none. The room is full of blanks, so that it
// can be read with the replies in it.
fn run(rt: &(impl Print + Eprint), from: &mut impl Read) {
    let mut input = [0u8; 4096];
    let mut room = [b' '; 2048];
    let count = from.read(&mut input).unwrap_or(0);
    do_as_told(rt, &input[..count], &mut room);
}

fn main(rt: HostRuntime) {
    run(&rt, &mut rt.stdin());
}
