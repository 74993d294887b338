// The output of a program: bytes are handed to write, a write that failed is told, and the program ends with a status.
//
// That nobody reads on is no failure: such a program ends in silence. Which bytes write does away with, and what stands on
// standard error, no contract can say.
#![tactic(auto)]

ghost use Rattle.std.specs.Prelude.{◌≡◌, ◌<◌, ℕ, true, false, length};
ghost use Rattle.std.specs.Process.{exit_status};
ghost use Rattle.output.specs.Output.{Turns, ending_of, status_of};

use std::io;
use std::io::ErrorKind;
use std::ops::ControlFlow;
use std::process::ExitCode;

// How a program ends: where its output is heard, or where nobody reads on.
#[derive(Clone, Copy, PartialEq, Eq)]
pub enum Ending {
    Heard,
    Unheard,
}

// How many bytes were handed to write, and whether the program goes on: it does where all of them went out.
#[derive(Clone, Copy)]
pub struct Written {
    pub handed: usize,
    pub next: ControlFlow<Ending>,
}

// Tells of a write that failed, but where nobody reads.
fn tell(rt: &impl Eprint, program: &str, failure: io::Error) -> Ending {
    if failure.kind() == ErrorKind::BrokenPipe {
        return Ending::Unheard;
    }
    let _ = eprintln!(rt; "{program}: the output cannot be written");
    Ending::Heard
}

// Hands the bytes to write, and tells how many they are. A failure is told under the program's name.
pub fn write(rt: &(impl Print + Eprint), program: &str, bytes: &[u8]) -> Written
    ensures { result.handed ≡ length bytes.now }
{
    let next = match rt.write_all(bytes) {
        Ok(()) => ControlFlow::Continue(()),
        Err(failure) => ControlFlow::Break(tell(rt, program, failure)),
    };
    Written {
        handed: bytes.len(),
        next,
    }
}

// How a program ends that has no more to write.
pub fn ended(next: ControlFlow<Ending>) -> Ending
    ensures { result ≡ ending_of next }
{
    next.break_value().unwrap_or(Ending::Heard)
}

// The status: 0, or where nobody reads, what a shell tells of a program that a closed pipe has ended.
impl From<Ending> for ExitCode {
    ghost from_gives = { λ ending code. exit_status code ≡ status_of ending };

    fn from(ending: Ending) -> ExitCode {
        match ending {
            Ending::Heard => ExitCode::SUCCESS,
            Ending::Unheard => ExitCode::from(141),
        }
    }
}

// Turn after turn, each from what the one before left, as long as the program goes on. A proved loop ends, and nothing
// says that the input does: the turns are counted up to a number that no input reaches.
pub fn turns<S: Copy, G: Fn(S) -> bool, F: FnMut(S) -> S>(start: S, goes_on: G, mut turn: F) -> S
    requires asks { G.IsAlwaysCallable goes_on }
    requires turns { F.IsAlwaysCallable turn }
    ensures { (n : ℕ) × (last : F) × Turns (λ s. G.post goes_on s true) (λ f s t g. F.step f s t g) n turn start last result × (n < u64.MAX → G.post goes_on result false) }
{
    let mut state = start;
    for _ in 0..u64::MAX {
        if !goes_on(state) {
            break;
        }
        state = turn(state);
    }
    state
}
