// Texts over plain memory: cut and read by the delimiters that they name, escaped and unescaped by those that are handed over; with
// today's frame limit.
#![tactic(auto)]

ghost use Rattle.std.specs.Prelude.{◌≡◌};
ghost use Rattle.texts.specs.Texts.{made_of, made_by_putting, CutFrames, Escaped, Unescaped, RecordsRead};

use answers::{Answer, Fault, Made, done, refused_with};
use faults::Refusal;
use kinds::Delimiters;

// Cuts a message into frames.
pub fn cut(text: &[u8], out: &mut [u8]) -> Made
    ensures { CutFrames text.now out.old result out.new }
{
    let framed = cutting::cut(memory::FRAME_LIMIT, text, out);
    made_of(framed)
}

// Escapes the delimiters of a text, which are handed over in the order of a header.
pub fn escape(delimiters: &[u8; kinds::DELIMITERS], text: &[u8], out: &mut [u8]) -> Made
    ensures { Escaped delimiters.now text.now out.old result out.new }
{
    let put = escaping::escape(Delimiters::of_four(delimiters), text, out);
    made_by_putting(put)
}

// Takes the escapes out of a component.
pub fn unescape(delimiters: &[u8; kinds::DELIMITERS], component: &[u8], out: &mut [u8]) -> Made
    ensures { Unescaped delimiters.now component.now out.old result out.new }
{
    let put = escaping::unescape(Delimiters::of_four(delimiters), component, out);
    made_by_putting(put)
}

// Reads a message: of each record its letter, where it starts, how long it is before its CR, and the number of its owner, from 1, or 0.
pub fn read(
    text: &[u8],
    types: &mut [u8],
    offsets: &mut [u16],
    lengths: &mut [u16],
    owners: &mut [u16],
) -> Made
    ensures { RecordsRead text.now types.old offsets.old lengths.old owners.old
        result types.new offsets.new lengths.new owners.new }
{
    let reading = owner::read(text, types, offsets, lengths, owners);
    made_of(reading)
}

// What became of a text that was cut or read.
#[tactic(auto, unfolding(crate::specs::Texts::made_of))]
fn made_of(done_to: Result<usize, Refusal>) -> Made
    ensures { result ≡ made_of done_to }
{
    match done_to {
        Ok(n) => done(n),
        Err(Refusal::Malformed) => refused_with(Answer::Malformed),
        Err(Refusal::NotFitting) => refused_with(Answer::NotFitting),
        Err(Refusal::Faulty(fault, place)) => refused_with(Answer::Faulty(fault, place)),
    }
}

#[tactic(auto, unfolding(crate::specs::Texts::made_by_putting))]
fn made_by_putting(put: Result<usize, escaping::Refusal>) -> Made
    ensures { result ≡ made_by_putting put }
{
    match put {
        Ok(n) => done(n),
        Err(escaping::Refusal::Malformed) => refused_with(Answer::Malformed),
        Err(escaping::Refusal::NotFitting) => refused_with(Answer::NotFitting),
        // No record is wrong, so there is no place.
        Err(escaping::Refusal::BadDelimiters) => {
            refused_with(Answer::Faulty(Fault::BadDelimiters, 0))
        }
    }
}
