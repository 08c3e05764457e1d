// A complete text: it is decided, and its line is left with what its fate says.
#![tactic(auto)]

ghost use Rattle.std.specs.Prelude.{◌≡◌};
ghost use Rattle.looking.specs.Inner.Ready.{Ready};
ghost use Rattle.looking.specs.Inner.Fitting.{TextFits};
ghost use Rattle.completing.specs.Deciding.{Deciding};
ghost use Rattle.completing.specs.Inner.Completing.{Completion, Completing};

use deciding::Decided;
use journal::Ledger;
use line::Line;
use looking::Event;
use receiving::Stepped;

// An event that completes a message, with n bytes of its frame's text: the message is decided. More bytes than the line has of it, or has room for, are beyond its limits.
pub fn decide(
    line: Line,
    ledger: Ledger,
    e: Event,
    n: usize,
    journal: &mut [u8],
    unfinished: &mut [u8],
    frames: &mut [u8],
) -> Stepped
    ensures { Deciding line ledger e n
        (record { journal = journal.entry.now; unfinished = unfinished.old; frames = frames.old })
        result (record { journal = journal.exit.now; unfinished = unfinished.new; frames = frames.new }) }
{
    let i = e.line as usize;
    match receiving::test(line, i, n, journal.len(), unfinished.len(), frames.len()) {
        Ok(()) => by_decision(line, ledger, e, n, journal, unfinished, frames),
        Err(answer) => Stepped {
            line,
            ledger,
            answer,
        },
    }
}

// The decision of a complete message, and what is left after it.
fn by_decision(
    line: Line,
    ledger: Ledger,
    e: Event,
    n: usize,
    journal: &mut [u8],
    unfinished: &mut [u8],
    frames: &mut [u8],
) -> Stepped
    requires { Ready line e.line unfinished.old frames.old × TextFits line n }
    ensures { Completing line ledger e n
        (record { journal = journal.entry.now; unfinished = unfinished.old; frames = frames.old })
        result (record { journal = journal.exit.now; unfinished = unfinished.new; frames = frames.new }) }
{
    let Decided { outcome, ledger } = complete(
        line, ledger, e.line, n, journal, unfinished, frames,
    );
    Stepped {
        line: receiving::close(line, e, n, outcome.fate, unfinished, frames),
        ledger,
        answer: outcome.answer,
    }
}

// The two pieces of the line's text are lent and decided: both are read, and only the journal is written.
fn complete(
    line: Line,
    ledger: Ledger,
    i: u8,
    n: usize,
    journal: &mut [u8],
    unfinished: &[u8],
    frames: &[u8],
) -> Decided
    requires { Ready line i unfinished.now frames.now × TextFits line n }
    ensures { Completion line ledger i n journal.old unfinished.now frames.now result journal.new }
{
    let at = i as usize;
    let text = at * memory::MESSAGE_LIMIT;
    let end = text + line.joined as usize;
    let start = at * memory::FRAME_PART + 1;
    let stop = start + n;
    deciding::decide(
        ledger,
        i,
        &unfinished[text..end],
        &frames[start..stop],
        journal,
    )
}
