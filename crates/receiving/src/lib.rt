// One event on its line alone: look, then act; and what a line is left with once its complete text is decided.
#![tactic(auto)]

ghost use Rattle.std.specs.Prelude.{◌≡◌};
ghost use Rattle.receiving.specs.Alone.{SteppingAlone};
ghost use Rattle.receiving.specs.Closing.{test_of, Closing};

use answers::Answer;
use deciding::Fate;
use journal::Ledger;
use line::Line;
use looking::{Event, Look};

mod settling; // settling.rt: what a look and a decision leave
mod testing; // testing.rt: whether a frame's text fits its line

// The line's record and the ledger after an event, with its answer.
#[derive(Clone, Copy)]
pub struct Stepped {
    pub line: Line,
    pub ledger: Ledger,
    pub answer: Answer,
}

// The line's record after an event, as far as its line alone goes, and the look at it: where that comes to a decision nothing has changed yet.
#[derive(Clone, Copy)]
pub struct Alone {
    pub line: Line,
    pub look: Look,
}

// One event on the line whose record this is, as far as the line alone goes: of the journal only its length is asked. An event that completes a message is left to `decide`.
pub fn step_alone(
    line: Line,
    e: Event,
    journal: usize,
    unfinished: &mut [u8],
    frames: &mut [u8],
) -> Alone
    ensures { SteppingAlone line e journal
        (record { unfinished = unfinished.entry.now; frames = frames.old })
        result (record { unfinished = unfinished.exit.now; frames = frames.new }) }
{
    let look = looking::look_alone(line, e, journal, unfinished, frames);
    match look {
        Look::Done(v) => {
            let line = settling::settle(line, e.line as usize, e.kind, v.act, unfinished, frames);
            Alone { line, look }
        }
        Look::Decides(_) => Alone { line, look },
    }
}

// An event that is to complete a text with n bytes of its frame: 40, 41, and 42, where more bytes than the line has of the frame, or has room for, are beyond its limits too.
#[tactic(auto, unfolding(crate::specs::Closing::test_of))]
pub fn test(
    line: Line,
    i: usize,
    n: usize,
    journal: usize,
    unfinished: usize,
    frames: usize,
) -> Result<(), Answer>
    ensures { result ≡ test_of line i n journal unfinished frames }
{
    if memory::LINES <= i {
        return Err(Answer::NoLine);
    }
    if !looking::are_right(journal, unfinished, frames) {
        return Err(Answer::WrongSize);
    }
    if !line.is_within_limits() || !testing::fits(line, n) {
        return Err(Answer::BeyondLimits);
    }
    Ok(())
}

// The line of a text that was decided, with n bytes of its frame: the row of the text's fate. An event that 40, 41 or 42 refuses leaves everything as it was.
pub fn close(
    line: Line,
    e: Event,
    n: usize,
    fate: Fate,
    unfinished: &mut [u8],
    frames: &mut [u8],
) -> Line
    ensures { Closing line e n fate
        (record { unfinished = unfinished.entry.now; frames = frames.old })
        result (record { unfinished = unfinished.exit.now; frames = frames.new }) }
{
    let i = e.line as usize;
    match test(
        line,
        i,
        n,
        memory::JOURNAL_SIZE,
        unfinished.len(),
        frames.len(),
    ) {
        Ok(()) => settling::close(line, i, e.kind, n, fate, unfinished, frames),
        Err(_) => line,
    }
}
