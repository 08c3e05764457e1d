// E1381 frames: the writing of one.
#![tactic(auto)]

ghost use Rattle.framing.specs.Writing.{FramePut};

use digits::MOST_NUMBER;
use frame::End;

mod writing; // writing.rt: the parts of a frame in lent memory

// Why no frame is written: its number is none, or the memory is too short.
#[derive(Clone, Copy)]
pub enum Refusal {
    Malformed,
    NotFitting,
}

// Writes a frame of any bytes over the start of out, and gives its length: for a text that is known to be allowed and to fit its frame.
pub fn put_frame(number: u8, end: End, text: &[u8], out: &mut [u8]) -> Result<usize, Refusal>
    ensures { FramePut number end text.now out.old result out.new }
{
    if MOST_NUMBER < number {
        return Err(Refusal::Malformed);
    }
    let size = text.len() + frame::AROUND_TEXT;
    if out.len() < size {
        return Err(Refusal::NotFitting);
    }
    writing::lay_frame(number, end, text, out);
    Ok(size)
}
