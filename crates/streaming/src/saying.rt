// The lines of a listing that are no rows: its header, and the line that closes it.
ghost use Rattle.std.specs.Prelude.{◌≡◌, ◌≤◌, length};
ghost use Rattle.streaming.specs.Said.{silent, behind};
ghost use Rattle.streaming.specs.Inner.Ready.{instead_of};

use super::{Kept, Stage};

// The line that comes next, at the start of the output; where none does, nothing. Where what waits cannot be run, nothing is left to do.
#[tactic(auto, unfolding(crate::specs::Inner::Ready::instead_of, listing::specs::Texts::end_of, memory::specs::Moves::copied), using(memory::proofs::Branches::branches))]
pub fn say(kept: Kept, out: &mut [u8]) -> Kept
    ensures { (result ≡ (instead_of kept out.old).kept) × (out.new ≡ (instead_of kept out.old).out)
        × (result.written ≤ length out.new) }
{
    match kept.stage {
        Stage::Begins => {
            let written = listing::write_header(out, 0);
            follow(kept, written, Stage::Runs)
        }
        Stage::Runs => super::over(),
        Stage::Wants => quiet(kept),
        Stage::Total => {
            let written = listing::write_total(kept.events, out, 0);
            follow(kept, written, Stage::Over)
        }
        Stage::Fault => {
            let line = std::num::wrapping_add_u64(kept.events, 1);
            let written = listing::write_fault(line, out, 0);
            follow(kept, written, Stage::Over)
        }
        Stage::Over => quiet(kept),
    }
}

// What comes behind a line that was written; where it had no room, nothing.
fn follow(kept: Kept, written: Option<usize>, stage: Stage) -> Kept
    ensures { result ≡ behind kept written stage }
{
    match written {
        Some(n) => Kept {
            written: n,
            stage,
            ..kept
        },
        None => super::over(),
    }
}

fn quiet(kept: Kept) -> Kept
    ensures { result ≡ silent kept }
{
    Kept { written: 0, ..kept }
}
