// A complete text is decided: the records, then the journal.
#![tactic(auto)]

ghost use Rattle.std.specs.Prelude.{◌≡◌, ◌++◌, length};
ghost use Rattle.memory.specs.Sizes.{message_limit};
ghost use Rattle.deciding.specs.Decisions.{outcome_with, objection_to, room_outcome, Decision};
ghost use Rattle.deciding.specs.Inner.Joined.{Joined};

use answers::Answer;
use faults::Flaw;
use journal::{Ledger, Refusal};

// What becomes of a text: it is stored or decided against, or everything is left as it was.
#[derive(Clone, Copy)]
pub enum Fate {
    Store,
    Object,
    Leave,
}

// What a decision comes to.
#[derive(Clone, Copy)]
pub struct Outcome {
    pub fate: Fate,
    pub answer: Answer,
}

#[derive(Clone, Copy)]
pub struct Decided {
    pub outcome: Outcome,
    pub ledger: Ledger,
}

// Decides a text on a line, which comes in two pieces: what the line has, and what its last frame brings. Only the journal is written.
pub fn decide(ledger: Ledger, line: u8, old: &[u8], new: &[u8], journal: &mut [u8]) -> Decided
    ensures { Decision ledger line (old.now ++ new.now) journal.old result journal.new }
{
    let mut place = [0u8; memory::MESSAGE_LIMIT];
    in_place(&mut place, ledger, line, old, new, journal)
}

// The pieces joined in a place of a message's size: what does not fit there is too long for a message.
fn in_place(
    place: &mut [u8],
    ledger: Ledger,
    line: u8,
    old: &[u8],
    new: &[u8],
    journal: &mut [u8],
) -> Decided
    requires { length place.old ≡ message_limit }
    ensures { Decision ledger line (old.now ++ new.now) journal.old result journal.new }
{
    if !join(place, old, new) {
        return Decided {
            outcome: comes_to(Fate::Object, Answer::NoMessage),
            ledger,
        };
    }
    let size = old.len() + new.len();
    of_text(ledger, line, &place[..size], journal)
}

// Both pieces, one behind the other, at the start of the place; and whether they fit there.
fn join(place: &mut [u8], old: &[u8], new: &[u8]) -> bool
    ensures { Joined place.old old.now new.now result place.new }
{
    memory::copy(place, old) && memory::copy_at(place, old.len(), new)
}

// The storing judges and stores in one: nothing is written before its answer is known.
fn of_text(ledger: Ledger, line: u8, text: &[u8], journal: &mut [u8]) -> Decided
    ensures { Decision ledger line text.now journal.old result journal.new }
{
    if !message::is_message(text) {
        return Decided {
            outcome: comes_to(Fate::Object, objection(text)),
            ledger,
        };
    }
    let stored = journal::store(ledger, room::shares(), line, text, journal);
    Decided {
        outcome: by_room(stored.answer),
        ledger: stored.ledger,
    }
}

// Why a text is no message, asked only of one that is none, so that a message does not wait for it.
#[tactic(auto, unfolding(crate::specs::Decisions::objection_to))]
fn objection(text: &[u8]) -> Answer
    ensures { result ≡ objection_to text.now }
{
    match faults::check(text) {
        Ok(()) | Err(Flaw::NotText) => Answer::NoMessage,
        Err(Flaw::Faulty(fault, place)) => Answer::Faulty(fault, place),
    }
}

// What the journal's answer comes to.
fn by_room(answer: Result<(), Refusal>) -> Outcome
    ensures { result ≡ room_outcome answer }
{
    match answer {
        Ok(()) => comes_to(Fate::Store, Answer::Stored),
        Err(Refusal::NoRoom) => comes_to(Fate::Object, Answer::NoRoom),
        Err(Refusal::Broken) => comes_to(Fate::Leave, Answer::Broken),
        Err(Refusal::NoLine) => comes_to(Fate::Leave, Answer::NoLine),
        Err(Refusal::WrongSize) => comes_to(Fate::Leave, Answer::WrongSize),
        Err(Refusal::Malformed) => comes_to(Fate::Object, Answer::NoMessage),
    }
}

fn comes_to(fate: Fate, answer: Answer) -> Outcome
    ensures { result ≡ outcome_with fate answer }
{
    Outcome { fate, answer }
}
