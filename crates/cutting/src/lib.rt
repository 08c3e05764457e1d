// A message cut into frames in lent memory: each record starts a new frame, and is cut into pieces that fit one.
#![tactic(auto)]

ghost use Rattle.std.specs.Prelude.{◌≡◌};
ghost use Rattle.faults.specs.Faults.{fault_of};
ghost use Rattle.cutting.specs.Frames.{CutInto};

use faults::Refusal;

mod measuring; // measuring.rt: where pieces end, and how long the frames are
mod writing; // writing.rt: the frames in lent memory

// Writes the frames of a message over the start of out, and gives their length. All is measured first, so that a refusal writes nothing.
pub fn cut(limit: usize, text: &[u8], out: &mut [u8]) -> Result<usize, Refusal>
    ensures { CutInto limit text.now out.old result out.new }
{
    if limit <= frame::AROUND_TEXT {
        return Err(Refusal::Malformed);
    }
    if !message::is_message(text) {
        return Err(faults::refuse(text));
    }
    let n = measuring::measure(limit, text);
    if out.len() < n {
        return Err(Refusal::NotFitting);
    }
    writing::write_all(limit, text, out);
    Ok(n)
}
