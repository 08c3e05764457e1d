// What an event comes to, read off its own line alone: it looks, and changes nothing.
#![tactic(auto)]

ghost use Rattle.std.specs.Prelude.{◌≡◌};
ghost use Rattle.looking.specs.Lent.{right_lengths};
ghost use Rattle.looking.specs.Looks.{look_alone};
ghost use Rattle.looking.specs.Verdicts.{verdict};

use answers::Answer;
use line::{Line, Sending};

mod judging; // judging.rt: the frame that a byte ends
mod states; // states.rt: a byte or seconds, by the line's state

// A byte that has come, or seconds that have passed.
#[derive(Clone, Copy)]
pub enum Kind {
    Byte(u8),
    Seconds(u8),
}

// What happens on a line.
#[derive(Clone, Copy)]
pub struct Event {
    pub line: u8,
    pub kind: Kind,
}

// What is done with a line: one row of "What is left" for each. The numbers are seconds, lengths of a frame's text, and the number of
// the frame that a sending offers.
#[derive(Clone, Copy)]
pub enum Act {
    Leave,
    Open,
    Close,
    Begin,
    Count(u8),
    Collect,
    Refuse,
    Accept(usize),
    Store(usize),
    Object(usize),
    Await(u8),
    Go(Sending, u8),
}

// What an event comes to: what is done with its line, and the answer.
#[derive(Clone, Copy)]
pub struct Verdict {
    pub act: Act,
    pub answer: Answer,
}

// What the line alone tells of an event: its verdict, or that a message is complete.
#[derive(Clone, Copy)]
pub enum Look {
    Done(Verdict),
    Decides(usize),
}

// An event on the line whose record this is: 40, 41, 42, then its work. Of the journal only its length is asked.
#[tactic(auto, using(crate::proofs::Alone::look_no_line, crate::proofs::Alone::look_size, crate::proofs::Alone::look_beyond, crate::proofs::Alone::look_work, crate::proofs::Alone::ready))]
pub fn look_alone(line: Line, e: Event, journal: usize, unfinished: &[u8], frames: &[u8]) -> Look
    ensures { result ≡ look_alone line e journal unfinished.now frames.now }
{
    let i = e.line as usize;
    if memory::LINES <= i {
        return done(Act::Leave, Answer::NoLine);
    }
    if !are_right(journal, unfinished.len(), frames.len()) {
        return done(Act::Leave, Answer::WrongSize);
    }
    if !line.is_within_limits() {
        return done(Act::Leave, Answer::BeyondLimits);
    }
    states::look(line, i, e.kind, unfinished, frames)
}

// A look that decides no message.
fn done(act: Act, answer: Answer) -> Look
    ensures { result ≡ Look.Done (verdict act answer) }
{
    Look::Done(Verdict { act, answer })
}

// Whether the three memories have their sizes.
pub fn are_right(journal: usize, unfinished: usize, frames: usize) -> bool
    ensures { result ≡ right_lengths journal unfinished frames }
{
    journal == memory::JOURNAL_SIZE
        && unfinished == memory::UNFINISHED_SIZE
        && frames == memory::FRAMES_SIZE
}
