// A reader's call: the oldest entry of its line, over the state that a host keeps in plain numbers (`layout` says where each stands).
#![tactic(auto)]

ghost use Rattle.std.specs.Prelude.{◌≡◌};
ghost use Rattle.reader.specs.Takings.{Taken, taking_in_numbers};

use answers::{Answer, Answered};
use journal::NotTaken;
use layout::{COUNTS, NUMBERS};

// An entry taken, the only answer with values.
const TAKEN: u8 = 8;

// The text of a line's oldest entry goes to the start of the buffer.
pub fn take(
    line: u8,
    numbers: &[u16; NUMBERS],
    counts: &mut [u32; COUNTS],
    journal: &mut [u8],
    buffer: &mut [u8],
) -> Answered
    ensures { Taken numbers.now line
        (record { counts = counts.entry.now; journal = journal.old; buffer = buffer.old })
        result (record { counts = counts.exit.now; journal = journal.new; buffer = buffer.new }) }
{
    let i = line as usize;
    if memory::LINES <= i {
        return answers::in_numbers(Answer::NoLine);
    }
    let ledger = ledger::ledger_of(numbers, counts);
    let taking = journal::take(ledger, line, journal, buffer);
    let booked = taking.ledger;
    let took = taking.answer;
    ledger::put_used(counts, i, booked.used[i], booked.in_use as u32);
    taking_in_numbers(took)
}

// The answer to a taking; only 8 has values.
#[tactic(auto, unfolding(crate::specs::Takings::taking_in_numbers))]
fn taking_in_numbers(took: Result<(usize, u16), NotTaken>) -> Answered
    ensures { result ≡ taking_in_numbers took }
{
    match took {
        Ok((length, serial)) => Answered {
            number: TAKEN,
            reply: 0,
            serial,
            place: 0,
            digits: 0,
            length,
        },
        Err(_) => answers::in_numbers(taking::answer_to(took)),
    }
}
