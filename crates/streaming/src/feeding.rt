// What a read has brought.
ghost use Rattle.std.specs.Prelude.{◌≡◌, ◌+◌, ◌^◌, ◌<◌, ◌≤◌, length, nat_le};
ghost use Rattle.streaming.specs.Fed.{grown, finished};

use super::{Kept, Stage};

const NEWLINE: u8 = b'\n';

// Whether n bytes behind the end of those that wait lie in an input of so many bytes.
#[tactic(auto, using(memory::proofs::Branches::branches))]
pub fn has_room(end: usize, n: usize, most: usize) -> bool
    ensures { result ≡ nat_le (end + n) most }
{
    end <= most && n <= most - end
}

// n bytes more wait.
pub fn grow(kept: Kept, n: usize) -> Kept
    requires { kept.end + n < 2 ^ 64 }
    ensures { result ≡ grown kept n }
{
    Kept {
        end: kept.end + n,
        ended: false,
        written: 0,
        stage: Stage::Runs,
        ..kept
    }
}

// The trace is at its end: a last line without a newline counts, and gets one.
#[tactic(auto, unfolding(crate::specs::Fed::finished), using(memory::proofs::Branches::branches))]
pub fn finish(kept: Kept, input: &mut [u8]) -> Kept
    requires { kept.end ≤ length input.old }
    ensures { (result ≡ (finished kept input.old).kept) × (input.new ≡ (finished kept input.old).input) }
{
    let end = kept.end;
    if kept.from == end {
        return super::close(kept.events, 0, Stage::Total);
    }
    if end == input.len() {
        return super::close(kept.events, 0, Stage::Fault);
    }
    input[end] = NEWLINE;
    Kept {
        end: end + 1,
        ended: true,
        written: 0,
        stage: Stage::Runs,
        ..kept
    }
}
