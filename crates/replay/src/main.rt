// The replay: a trace in, its listing out. The trace is the standard input, or each file that an argument names, run from a fresh gateway.
// It streams: the memory is fixed, whatever the length of the trace.
#![tactic(auto)]

ghost use Rattle.std.specs.Prelude.{OnOk};
ghost use Rattle.replay.specs.Replays.{Lists};

use std::env::FillError;
use std::fs::File;
use std::io::{Read, Write};
use std::rt::{Env, Files};
use std::{io, str};
use turns::Fault;

mod turns; // turns.rt: a trace, turn by turn
mod writing; // writing.rt: what is written

// The most bytes of an argument: more than a path may have.
const ARGUMENT: usize = 4096;

// Memory for the bytes of a trace that wait.
const INPUT: usize = 65536;

fn main(rt: HostRuntime) {
    if !has_argument(&rt, 1) {
        replay(&rt, &mut rt.stdin(), "standard input", false);
        return;
    }
    let titled = has_argument(&rt, 2);
    for i in (1..usize::MAX).take_while(|i| has_argument(&rt, *i)) {
        replay_argument(&rt, i, titled);
    }
}

// Whether the program was given an argument of this number. `env::args` takes the heap, and refuses all for one that is not UTF-8.
fn has_argument(rt: &impl Env, i: usize) -> bool {
    !matches!(rt.arg(i, &mut []), Err(FillError::NotPresent))
}

// The trace that an argument names; an argument that no file can have for its name is told on the standard error.
fn replay_argument<R: Env + Files + Print + Eprint>(rt: &R, i: usize, titled: bool) {
    let mut name = [0u8; ARGUMENT];
    match rt.arg(i, &mut name) {
        Ok(n) => match str::from_utf8(&name[..n]) {
            Ok(name) => replay_file(rt, name, titled),
            Err(error) => writing::tell(rt, "argument", error),
        },
        Err(FillError::TooLong) => writing::tell(rt, "argument", "File name too long"),
        Err(FillError::NotPresent) => {}
    }
}

// The file of this name; one that cannot be opened is told on the standard error.
fn replay_file<R: Files + Print + Eprint>(rt: &R, name: &str, titled: bool) {
    match File::open(rt, name) {
        Ok(mut file) => replay(rt, &mut file, name, titled),
        Err(error) => writing::tell(rt, name, error),
    }
}

// One trace from a fresh gateway; what keeps its listing from its end is told on the standard error.
fn replay<R: Print + Eprint, T: Read>(rt: &R, trace: &mut T, name: &str, titled: bool) {
    match list(trace, &mut io::writer(rt), name, titled) {
        Ok(()) => {}
        Err(Fault::Trace(error)) => writing::tell(rt, name, error),
        Err(Fault::Output(error)) => writing::tell(rt, "standard output", error),
    }
}

// The listing of a trace, behind its name where there are several. Nothing is written before the first bytes are read, so of a trace
// that cannot be read only the fault is told.
fn list<T: Read, W: Write>(
    trace: &mut T,
    listing: &mut W,
    name: &str,
    titled: bool,
) -> Result<(), Fault>
    ensures { OnOk result
        (Lists titled name.now (T.remaining trace.old) (W.contents listing.old) (W.contents listing.new)) }
{
    let mut input = [0u8; INPUT];
    let n = trace.read(&mut input).map_err(Fault::Trace)?;
    writing::title(listing, name, titled)?;
    turns::run(trace, listing, n, &mut input)
}
