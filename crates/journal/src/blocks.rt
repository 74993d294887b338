// The lines of a block, one after the other: the one loop that holds the record.
ghost use Rattle.std.specs.Prelude.{◌≡◌, ◌+◌, ◌*◌, ◌≤◌, ◌<◌, length, take, drop};
ghost use Rattle.journal.specs.Blocks.{fed, closed, kept_seen};
ghost use Rattle.journal.specs.Inner.{Worked};

use crate::asking::Reader;
use crate::judging::{judged, place, whom};
use crate::writing::put_judged;
use card::Record;
use texts::line_end;

// The record after the lines that were answered, where they end, and how much output there is; of what is held then,
// which `Kept` tells, nothing is known yet.
#[derive(Clone, Copy)]
struct Done {
    after: Record,
    taken: usize,
    filled: usize,
}

// What is kept until more of the input comes, and how much output there is.
#[derive(Clone, Copy)]
pub struct Kept {
    pub after: Record,
    pub held: usize,
    pub filled: usize,
}

// Answers every line of the block that is ended. Soundness is tested once: a line leaves a sound record
// sound, and an unsound one as it is. The record is searched only for a line that seeks an address.
fn lines(given: Record, block: &[u8], out: &mut [u8]) -> Done
    requires { 8 * length block.now + 40 ≤ length out.old }
    ensures { Worked given block.now out.new result }
{
    let fit = given.is_sound();
    let mut reader = Reader::new();
    let mut r = given;
    let mut at = 0;
    let mut filled = 0;
    // Only lines that are ended are answered, and where the last of them ends is handed on: `Lines` gives the line under
    // way too, and no line's end.
    loop {
        let end = line_end(block, at);
        if block.len() <= end {
            break;
        }
        let entry = reader.asks(&block[at..end]);
        let found = whom(entry).and_then(|address| r.find(address));
        let n = place(entry, found);
        let z = r.zones[n];
        let verdict = judged(fit, entry, found, z);
        if verdict.alters() {
            r.zones[n] = verdict.after(z);
        }
        filled += put_judged(entry, verdict, &mut out[filled..]);
        at = end + 1;
    }
    Done {
        after: r,
        taken: at,
        filled,
    }
}

// Moves the bytes from `at` to `end` to the front, but no more than 601 of them.
fn keep(buffer: &mut [u8], at: usize, end: usize) -> usize
    requires { (at ≤ end) × (end ≤ length buffer.old) }
    ensures buffer_after { take result buffer.new ≡ take 601 (drop at (take end buffer.old)) }
    ensures upper_bound { (result ≤ 601) × (result ≤ end) }
{
    let n = (end - at).min(601);
    buffer.copy_within(at..at + n, 0);
    n
}

// Works on the first `end` bytes of the buffer: every line that is ended is answered, in `out`, and what
// is held of the one that is not stands at the front of the buffer afterwards.
pub fn feed(given: Record, buffer: &mut [u8], end: usize, out: &mut [u8]) -> Kept
    requires { (end ≤ length buffer.old) × (8 * end + 40 ≤ length out.old) }
    ensures buffer_after { kept_seen result out.new buffer.new ≡ fed given (take end buffer.old) }
    ensures held_bound { (result.held ≤ 601) × (result.held ≤ end) × (result.filled ≤ 8 * end) }
{
    let done = lines(given, &buffer[..end], out);
    Kept {
        after: done.after,
        held: keep(buffer, done.taken, end),
        filled: done.filled,
    }
}

// At the end of the input the line under way gets the line feed that it lacks.
pub fn close(buffer: &mut [u8], held: usize) -> usize
    requires { held < length buffer.old }
    ensures buffer_after { take result buffer.new ≡ closed (take held buffer.old) }
    ensures upper_bound { result ≤ length buffer.old }
{
    if held == 0 {
        return 0;
    }
    buffer[held] = b'\n';
    held + 1
}
