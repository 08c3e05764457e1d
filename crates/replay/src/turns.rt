// A trace, turn by turn: a turn, a write, and where more is wanted a read. What is done between them is proved in `streaming`.
ghost use Rattle.std.specs.Prelude.{◌≤◌, length, take, IfOk, IfErr, OnOk};
ghost use Rattle.std.specs.Io.KnownBytes.{Appends};
ghost use Rattle.replay.specs.Faults.{OfTrace, LeavesWritten};
ghost use Rattle.streaming.specs.Inner.Places.{LiesIn};
ghost use Rattle.replay.specs.Inner.Passing.{Reads, Passes, WritesListing};

use crate::writing;
use replaying::Lent;
use std::io;
use std::io::{Read, Write};
use streaming::Kept;

// Memory for what a turn puts into the output.
const OUTPUT: usize = 65536;

// What ends a listing before its end: a read of the trace that failed, or a write of the listing.
#[derive(Drop)]
pub enum Fault {
    Trace(io::Error),
    Output(io::Error),
}

// The memory of a run, and its first n bytes. A proved loop has to end, and nothing says that a trace does:
// the loop counts up to a number that no trace reaches.
pub fn run<T: Read, W: Write>(
    trace: &mut T,
    listing: &mut W,
    n: usize,
    input: &mut [u8],
) -> Result<(), Fault>
    requires { n ≤ length input.old }
    ensures { OnOk result
        (WritesListing n input.old (T.remaining trace.old) (W.contents listing.old) (W.contents listing.new)) }
{
    // Arrays and no `Vec`: the replay runs in fixed memory, and lends it as hosts do.
    let mut out = [0u8; OUTPUT];
    let mut journal = [0u8; memory::JOURNAL_SIZE];
    let mut unfinished = [0u8; memory::UNFINISHED_SIZE];
    let mut frames = [0u8; memory::FRAMES_SIZE];
    let mut buffer = [0u8; memory::MESSAGE_LIMIT];
    let mut numbers = [0u16; layout::NUMBERS];
    let mut counts = [0u32; layout::COUNTS];
    layout::fresh(&mut numbers, &mut counts);
    let mut lent = Lent {
        numbers: &mut numbers,
        counts: &mut counts,
        journal: &mut journal,
        unfinished: &mut unfinished,
        frames: &mut frames,
        buffer: &mut buffer,
    };
    let mut kept = streaming::begin(n);
    for _ in 0..u64::MAX {
        kept = streaming::turn(kept, input, &mut out, &mut lent);
        kept = pass(trace, listing, kept, &out, input)?;
        if streaming::is_over(kept.stage) {
            return Ok(());
        }
    }
    Ok(())
}

// What a turn has put into the output is written; where it wants more, more is read. Where a write or a read fails, nothing is left to do.
fn pass<T: Read, W: Write>(
    trace: &mut T,
    listing: &mut W,
    kept: Kept,
    out: &[u8],
    input: &mut [u8],
) -> Result<Kept, Fault>
    requires { LiesIn kept (length input.old) × (kept.written ≤ length out.now) }
    ensures lies { IfOk result (λ after. LiesIn after (length input.new)) }
    ensures passes { IfOk result (λ after.
        Passes kept out.now input.old (W.contents listing.old) (T.remaining trace.old)
        after input.new (W.contents listing.new) (T.remaining trace.new)) }
    ensures fault { IfErr result (λ f.
        LeavesWritten (Appends (W.contents listing.old) (W.contents listing.new) (take kept.written out.now)) f) }
{
    writing::lines(listing, &out[..kept.written])?;
    if !streaming::wants_more(kept.stage) {
        return Ok(kept);
    }
    more(trace, kept, input)
}

// Reads behind what waits.
fn more<T: Read>(trace: &mut T, kept: Kept, input: &mut [u8]) -> Result<Kept, Fault>
    requires { LiesIn kept (length input.old) }
    ensures lies { IfOk result (λ after. LiesIn after (length input.new)) }
    ensures reads { IfOk result (λ after.
        Reads kept input.old (T.remaining trace.old) after input.new (T.remaining trace.new)) }
    ensures fault { IfErr result OfTrace }
{
    let n = trace.read(&mut input[kept.end..]).map_err(Fault::Trace)?;
    Ok(streaming::feed(kept, n, input))
}
