// What waits: whether it is run, and what is left of it behind a run handed on.
ghost use Rattle.std.specs.Prelude.{◌≡◌, ◌+◌, ◌-◌, ◌≤◌, length};
ghost use Rattle.streaming.specs.Stages.{is_running};
ghost use Rattle.streaming.specs.Handed.{handed, moved, onward};
ghost use Rattle.streaming.specs.Inner.Ready.{is_ready};
ghost use Rattle.streaming.specs.Inner.Rest.{moved_for};

use super::{Kept, Stage};
use replaying::{Progress, Stop};

// Whether what waits is to be run, and lies in an input of so many bytes.
#[tactic(auto, unfolding(crate::specs::Inner::Ready::is_ready), using(memory::proofs::Branches::branches))]
pub fn is_ready(kept: Kept, most: usize) -> bool
    ensures { result ≡ is_ready kept most }
{
    runs(kept.stage) && kept.from <= kept.end && kept.end <= most
}

fn runs(stage: Stage) -> bool
    ensures { result ≡ is_running stage }
{
    matches!(stage, Stage::Runs)
}

// What comes behind a run, by why it stopped.
#[tactic(auto, unfolding(crate::specs::Handed::handed, crate::specs::Handed::moved), using(memory::proofs::Branches::branches))]
pub fn hand_on(kept: Kept, p: Progress, input: &mut [u8]) -> Kept
    requires { (kept.from + p.read ≤ kept.end) × (kept.end ≤ length input.old) }
    ensures { (result ≡ handed kept p) × (input.new ≡ moved kept p input.old) }
{
    let at = kept.from + p.read;
    match p.stop {
        Stop::Output => Kept {
            from: at,
            events: p.events,
            written: p.written,
            stage: Stage::Runs,
            ..kept
        },
        Stop::NotAnEvent => super::close(p.events, p.written, Stage::Fault),
        Stop::Input => rest(at, kept.end, kept.ended, p.events, p.written, input),
    }
}

// All whole lines are run, up to `at`: at the end of the trace nothing is left. A line that is too long is not an event, wherever it ends.
// Else more is wanted, and what is left moves to the start of the input.
#[tactic(auto, unfolding(crate::specs::Handed::onward), using(memory::proofs::Branches::branches))]
fn rest(at: usize, end: usize, ended: bool, events: u64, written: usize, input: &mut [u8]) -> Kept
    requires { at ≤ end }
    ensures { (result ≡ onward (end - at) ended events written) × (input.new ≡ moved_for result at end input.old) }
{
    if ended {
        return super::close(events, written, Stage::Total);
    }
    let n = end - at;
    if listing::LINE_LIMIT < n {
        return super::close(events, written, Stage::Fault);
    }
    memory::close_up(input, 0, at, end);
    Kept {
        from: 0,
        end: n,
        events,
        ended: false,
        written,
        stage: Stage::Wants,
    }
}
