// One event on one line, whole: by value, and where the line's record and the ledger lie.
#![tactic(auto)]

ghost use Rattle.std.specs.Prelude.{◌≡◌};
ghost use Rattle.receiving.specs.Steps.{Stepping};

use answers::Answer;
use journal::Ledger;
use line::Line;
use looking::{Event, Look};
use receiving::Stepped;

// One event on the line whose record this is, by value.
pub fn step(
    line: Line,
    ledger: Ledger,
    e: Event,
    journal: &mut [u8],
    unfinished: &mut [u8],
    frames: &mut [u8],
) -> Stepped
    ensures { Stepping line ledger e
        (record { journal = journal.entry.now; unfinished = unfinished.old; frames = frames.old })
        result (record { journal = journal.exit.now; unfinished = unfinished.new; frames = frames.new }) }
{
    let alone = receiving::step_alone(line, e, journal.len(), unfinished, frames);
    let after = alone.line;
    let look = alone.look;
    match look {
        Look::Done(v) => {
            let answer = v.answer;
            done(after, ledger, answer)
        }
        Look::Decides(n) => completing::decide(line, ledger, e, n, journal, unfinished, frames),
    }
}

// The same where the record and the ledger lie: the step by value, and its outcome stored. Hosts do not call it, as they cannot hold a record with an enum in it.
pub fn step_in_place(
    line: &mut Line,
    ledger: &mut Ledger,
    event: Event,
    journal: &mut [u8],
    unfinished: &mut [u8],
    frames: &mut [u8],
) -> Answer
    ensures { Stepping line.entry.now ledger.old event
        (record { journal = journal.entry.now; unfinished = unfinished.old; frames = frames.old })
        (record { line = line.exit.now; ledger = ledger.new; answer = result })
        (record { journal = journal.exit.now; unfinished = unfinished.new; frames = frames.new }) }
{
    let s = step(*line, *ledger, event, journal, unfinished, frames);
    *line = s.line;
    *ledger = s.ledger;
    s.answer
}

// A step that the line alone has done leaves the ledger.
fn done(line: Line, ledger: Ledger, answer: Answer) -> Stepped
    ensures { result ≡ record { line = line; ledger = ledger; answer = answer } }
{
    Stepped {
        line,
        ledger,
        answer,
    }
}
