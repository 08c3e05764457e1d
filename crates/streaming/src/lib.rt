// A trace that comes in pieces: all that is done between a read and the write behind it, in lent memory.
// A program reads, calls `feed`, calls `turn`, and writes what the turn has put at the start of the output.
#![tactic(auto)]

ghost use Rattle.std.specs.Prelude.{◌≡◌, ◌≤◌, length};
ghost use Rattle.replaying.specs.Lents.{desk, SameReferences, SameLengths};
ghost use Rattle.streaming.specs.Stages.{begun, wants, is_over, nothing, closes};
ghost use Rattle.streaming.specs.Fed.{fed_of};
ghost use Rattle.streaming.specs.Streams.{stream_of, turned};

use replaying::Lent;

mod feeding; // feeding.rt: what a read has brought
mod handing; // handing.rt: what waits, before a run and behind it
mod saying; // saying.rt: the lines of a listing that are no rows

// What comes next: the header, a run of what waits, a read, one of the two lines that close a listing, or nothing.
#[derive(Clone, Copy)]
pub enum Stage {
    Begins,
    Runs,
    Wants,
    Total,
    Fault,
    Over,
}

// What is kept of a trace between two calls: the bytes of the input that wait, from one place to another, the events run,
// whether the trace is read to its end, how much of the output is to be written, and what comes next.
#[derive(Clone, Copy)]
pub struct Kept {
    pub from: usize,
    pub end: usize,
    pub events: u64,
    pub ended: bool, // not a stage: what waits is run both before the end of the trace is read and after it
    pub written: usize,
    pub stage: Stage,
}

// A trace of which n bytes are read.
pub fn begin(n: usize) -> Kept
    ensures { result ≡ begun n }
{
    Kept {
        from: 0,
        end: n,
        events: 0,
        ended: false,
        written: 0,
        stage: Stage::Begins,
    }
}

// Whether more is to be read behind what waits.
pub fn wants_more(stage: Stage) -> bool
    ensures { result ≡ wants stage }
{
    matches!(stage, Stage::Wants)
}

// Whether the listing is written.
pub fn is_over(stage: Stage) -> bool
    ensures { result ≡ is_over stage }
{
    matches!(stage, Stage::Over)
}

// Nothing is left to do.
pub fn over() -> Kept
    ensures { result ≡ nothing }
{
    Kept {
        from: 0,
        end: 0,
        events: 0,
        ended: true,
        written: 0,
        stage: Stage::Over,
    }
}

// The line that closes the listing comes behind so many bytes of rows.
fn close(events: u64, written: usize, stage: Stage) -> Kept
    ensures { result ≡ closes events written stage }
{
    Kept {
        from: 0,
        end: 0,
        events,
        ended: true,
        written,
        stage,
    }
}

// n bytes were read behind what waits; none where the trace is at its end.
#[tactic(auto, unfolding(crate::specs::Fed::fed_of), using(memory::proofs::Branches::branches))]
pub fn feed(kept: Kept, n: usize, input: &mut [u8]) -> Kept
    ensures { (result ≡ (fed_of kept n input.old).kept) × (input.new ≡ (fed_of kept n input.old).input) }
{
    if !feeding::has_room(kept.end, n, input.len()) {
        return over();
    }
    if 0 < n {
        return feeding::grow(kept, n);
    }
    feeding::finish(kept, input)
}

// One turn: the next line or the next rows of the listing at the start of the output; where more is wanted, the unread rest is at the start of the input.
pub fn turn(kept: Kept, input: &mut [u8], out: &mut [u8], lent: &mut Lent<'_>) -> Kept
    ensures same_references { SameReferences lent.old lent.new }
    ensures same_lengths { SameLengths lent.old lent.new }
    ensures turn { (stream_of result input.new out.new (desk lent.new) ≡ turned (stream_of kept input.old out.old (desk lent.old)))
        × (result.written ≤ length out.new) }
{
    if !handing::is_ready(kept, input.len()) {
        return saying::say(kept, out);
    }
    let from = kept.from;
    let end = kept.end;
    let progress = replaying::run(kept.events, &input[from..end], out, lent);
    handing::hand_on(kept, progress, input)
}
