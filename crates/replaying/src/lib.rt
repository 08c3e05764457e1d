// A trace replayed piece by piece: its lines read, the gateway asked, the listing's rows written, all in lent memory.
#![tactic(auto)]

ghost use Rattle.std.specs.Prelude.{◌≡◌, ◌≤◌, length};
ghost use Rattle.replaying.specs.Lents.{desk, SameReferences, SameLengths};
ghost use Rattle.replaying.specs.Runs.{run_leaves, piece_of};

mod asking; // asking.rt: what a line asks, done, and its row written
mod lines; // lines.rt: the next line of a trace

// Why a piece is left: no whole line of it is left, no room is left for a row, or its next line is not an event.
#[derive(Clone, Copy)]
pub enum Stop {
    Input,
    Output,
    NotAnEvent,
}

// Where a run stands: the events and takings run since the start, how much of the piece is read and of the listing written, and why it stopped.
#[derive(Clone, Copy)]
pub struct Progress {
    pub events: u64,
    pub read: usize,
    pub written: usize,
    pub stop: Stop,
}

// The room that is kept for a row: the longest has 50 bytes.
pub const ROW_ROOM: usize = 50;

// What a replay lends to the gateway: its numbers, its three memories, and the buffer for takings.
#[derive(Drop)]
pub struct Lent<'a> {
    pub numbers: &'a mut [u16; layout::NUMBERS],
    pub counts: &'a mut [u32; layout::COUNTS],
    pub journal: &'a mut [u8],
    pub unfinished: &'a mut [u8],
    pub frames: &'a mut [u8],
    pub buffer: &'a mut [u8],
}

// Replays the whole lines of a piece, behind so many events, and writes their rows over the start of out.
pub fn run(events: u64, input: &[u8], out: &mut [u8], lent: &mut Lent<'_>) -> Progress
    ensures same_references { SameReferences lent.old lent.new }
    ensures same_lengths { SameLengths lent.old lent.new }
    ensures run { (run_leaves result out.new (desk lent.new) ≡ piece_of events input.now out.old (desk lent.old))
        × (result.read ≤ length input.now) × (result.written ≤ length out.new) }
{
    let mut count = events;
    let mut at = 0;
    let mut put = 0;
    // A line has a byte at least.
    for _ in 0..input.len() {
        let asks = match lines::next(input, at, put, out.len()) {
            Ok(asks) => asks,
            Err(stop) => {
                return Progress {
                    events: count,
                    read: at,
                    written: put,
                    stop,
                };
            }
        };
        count = std::num::wrapping_add_u64(count, 1);
        let answered = asking::ask(asks.item, lent);
        put = asking::put_row(count, asks.item, answered, out, put);
        at = asks.behind;
    }
    Progress {
        events: count,
        read: at,
        written: put,
        stop: Stop::Input,
    }
}
