// A work order on its way down: the start of a sending, and the frame that its line offers, over the state that a host keeps in plain
// numbers (`layout` says where each stands).
#![tactic(auto)]

ghost use Rattle.std.specs.Prelude.{◌≡◌};
ghost use Rattle.orders.specs.Calls.{Sent, Fetched};

use answers::{Answer, Answered, Made};
use layout::{FIELDS, NUMBERS, REPLY};

mod fetching; // fetching.rt: the frame that a line offers
mod starting; // starting.rt: a start is looked at, and done

// A text is to be sent on a line: 40, 41, 42, 60, then the text. It is copied to the start of the line's unfinished part, and our ENQ is
// to be sent. It looks before it writes, so that a refusal changes nothing.
pub fn send(
    line: u8,
    text: &[u8],
    numbers: &mut [u16; NUMBERS],
    journal: &[u8],
    unfinished: &mut [u8],
    frames: &[u8],
) -> Answered
    ensures { Sent numbers.old line text.now
        (record { journal = journal.entry.now; unfinished = unfinished.old; frames = frames.now })
        result numbers.new unfinished.new }
{
    let i = line as usize;
    match starting::look(
        i,
        text,
        numbers,
        journal.len(),
        unfinished.len(),
        frames.len(),
    ) {
        Ok(()) => starting::ask(i, text, numbers, unfinished),
        Err(answer) => answers::in_numbers(answer),
    }
}

// The frame that a line offers, or our last reply to its strip reader, goes to the start of out: 40, 41, 42, 47. Nothing else changes, so that it can be fetched again.
pub fn outgoing(line: u8, numbers: &[u16; NUMBERS], unfinished: &[u8], out: &mut [u8]) -> Made
    ensures { Fetched numbers.now line unfinished.now out.old result out.new }
{
    let i = line as usize;
    if memory::LINES <= i {
        return answers::refused_with(Answer::NoLine);
    }
    if unfinished.len() != memory::UNFINISHED_SIZE {
        return answers::refused_with(Answer::WrongSize);
    }
    if !numbers::is_within(numbers, i) {
        return answers::refused_with(Answer::BeyondLimits);
    }
    if numbers::is_reader(numbers, i) {
        let reply = strips::replied_of(numbers[i * FIELDS + REPLY]);
        return fetching::fetch_reply(reply, out);
    }
    let line = numbers::record_of(numbers, i);
    fetching::fetch(line, i, unfinished, out)
}
