// A host's events, over the state that it keeps in plain numbers (`layout` says where each stands).
#![tactic(auto)]

ghost use Rattle.std.specs.Prelude.{◌<◌, ◌≡◌, true};
ghost use Rattle.looking.specs.declared.Kind.TheVariants.{Byte, Seconds};
ghost use Rattle.memory.specs.Sizes.{lines};
ghost use Rattle.answers.specs.InNumbers.{in_numbers as Plain·in_numbers};
ghost use Rattle.numbers.specs.Plain.{line_of, with_line};
ghost use Rattle.ledger.specs.Ledgers.{Narrow};
ghost use Rattle.numbers.specs.Changes.{is_within};
ghost use Rattle.calls.specs.Calls.{Calling};
ghost use Rattle.calls.specs.Inner.Steps.{PutBack};

use answers::{Answer, Answered};
use layout::{COUNTS, NUMBERS};
use line::Line;
use looking::{Event, Kind, Look};
use receiving::Stepped;

// A byte has come on a line. Most bytes are only collected: that changes one number and one byte, and copies nothing.
pub fn byte(
    line: u8,
    byte: u8,
    numbers: &mut [u16; NUMBERS],
    counts: &mut [u32; COUNTS],
    journal: &mut [u8],
    unfinished: &mut [u8],
    frames: &mut [u8],
) -> Answered
    ensures { Calling
        (record { numbers = numbers.entry.now; counts = counts.old; memory = record { journal = journal.entry.now; unfinished = unfinished.old; frames = frames.old } })
        (record { line = line; kind = Byte byte }) result
        (record { numbers = numbers.exit.now; counts = counts.new; memory = record { journal = journal.exit.now; unfinished = unfinished.new; frames = frames.new } }) }
{
    let i = line as usize;
    if memory::LINES <= i {
        return answers::in_numbers(Answer::NoLine);
    }
    if !looking::are_right(journal.len(), unfinished.len(), frames.len()) {
        return answers::in_numbers(Answer::WrongSize);
    }
    if numbers::collect(i, byte, numbers, frames) {
        return answers::nothing();
    }
    let e = Event {
        line,
        kind: Kind::Byte(byte),
    };
    let mut lent = Lent {
        numbers,
        counts,
        journal,
        unfinished,
        frames,
    };
    lent.event(e)
}

// Seconds have passed on a line.
pub fn seconds(
    line: u8,
    seconds: u8,
    numbers: &mut [u16; NUMBERS],
    counts: &mut [u32; COUNTS],
    journal: &mut [u8],
    unfinished: &mut [u8],
    frames: &mut [u8],
) -> Answered
    ensures { Calling
        (record { numbers = numbers.entry.now; counts = counts.old; memory = record { journal = journal.entry.now; unfinished = unfinished.old; frames = frames.old } })
        (record { line = line; kind = Seconds seconds }) result
        (record { numbers = numbers.exit.now; counts = counts.new; memory = record { journal = journal.exit.now; unfinished = unfinished.new; frames = frames.new } }) }
{
    let i = line as usize;
    if memory::LINES <= i {
        return answers::in_numbers(Answer::NoLine);
    }
    if !looking::are_right(journal.len(), unfinished.len(), frames.len()) {
        return answers::in_numbers(Answer::WrongSize);
    }
    let e = Event {
        line,
        kind: Kind::Seconds(seconds),
    };
    let mut lent = Lent {
        numbers,
        counts,
        journal,
        unfinished,
        frames,
    };
    lent.event(e)
}

// What a host lends to an event. `byte` and `seconds` take it apart, as the C interface hands it over.
#[derive(Drop)]
struct Lent<'a> {
    numbers: &'a mut [u16; NUMBERS],
    counts: &'a mut [u32; COUNTS],
    journal: &'a mut [u8],
    unfinished: &'a mut [u8],
    frames: &'a mut [u8],
}

impl Lent<'_> {
    ghost use Rattle.calls.specs.Inner.Lents.{kept, right, SameReferences};
    ghost use Rattle.calls.specs.Inner.Steps.{Stepping, Deciding};

    // An event past 40 and 41: numbers that are no record are 42; a strip reader's line goes its own way; STX between frames only begins
    // one, and needs no record; any other is stepped.
    fn event(&mut self, e: Event) -> Answered
        requires { (e.line < lines) × (right self.old ≡ true) }
        ensures same_references { SameReferences self.old self.new }
        ensures event { Calling (kept self.old) e result (kept self.new) }
    {
        let i = e.line as usize;
        if !numbers::is_within(self.numbers, i) {
            return answers::in_numbers(Answer::BeyondLimits);
        }
        if numbers::is_reader(self.numbers, i) {
            let numbers = &mut *self.numbers;
            let counts = &mut *self.counts;
            let journal = &mut *self.journal;
            let unfinished = &mut *self.unfinished;
            let frames = &mut *self.frames;
            return uploads::event(e, numbers, counts, journal, unfinished, frames);
        }
        let kind = e.kind;
        if numbers::begin(i, kind, self.numbers) {
            return answers::nothing();
        }
        self.step(e)
    }

    // The step on the line alone, its record read from the numbers and put back into them; a message that is complete is decided.
    fn step(&mut self, e: Event) -> Answered
        requires { (e.line < lines) × (is_within self.old.numbers.now e.line ≡ true) }
        ensures same_references { SameReferences self.old self.new }
        ensures stepped { Stepping (kept self.old) (line_of self.old.numbers.now e.line) e result (kept self.new) }
    {
        let record = numbers::record_of(self.numbers, e.line as usize);
        let journal = self.journal.len();
        let unfinished = &mut *self.unfinished;
        let frames = &mut *self.frames;
        let alone = receiving::step_alone(record, e, journal, unfinished, frames);
        let look = alone.look;
        match look {
            Look::Done(v) => {
                let answer = v.answer;
                leave(e.line, alone.line, answer, self.numbers)
            }
            Look::Decides(n) => self.decide(record, e, n),
        }
    }

    // A message that is complete: the ledger read from the numbers, the decision, and its outcome put back into the numbers.
    #[inline(never)] // a frame of its own: a strip reader's event needs none of this one's places
    fn decide(&mut self, line: Line, e: Event, n: usize) -> Answered
        requires { e.line < lines }
        ensures same_references { SameReferences self.old self.new }
        ensures decided { Deciding (kept self.old) line e n result (kept self.new) }
    {
        let numbers = &mut *self.numbers;
        let counts = &mut *self.counts;
        let journal = &mut *self.journal;
        let unfinished = &mut *self.unfinished;
        let frames = &mut *self.frames;
        let ledger = ledger::ledger_of(numbers, counts);
        let s = completing::decide(line, ledger, e, n, journal, unfinished, frames);
        put_back(e.line, s, numbers, counts)
    }
}

// What a step on the line alone leaves: its record put back, and its answer.
fn leave(i: u8, line: Line, answer: Answer, numbers: &mut [u16; NUMBERS]) -> Answered
    requires { i < lines }
    ensures { (numbers.new ≡ with_line numbers.old i line) × (result ≡ Plain·in_numbers answer) }
{
    numbers::put_record(numbers, i as usize, line);
    answers::in_numbers(answer)
}

// The outcome of a decision put back: the line's record, its serial, its used count with the bytes in use; and the answer.
fn put_back(
    line: u8,
    s: Stepped,
    numbers: &mut [u16; NUMBERS],
    counts: &mut [u32; COUNTS],
) -> Answered
    requires { (line < lines) × Narrow s.ledger }
    ensures { PutBack numbers.old counts.old line s result numbers.new counts.new }
{
    let i = line as usize;
    let booked = s.ledger;
    let answer = s.answer;
    numbers::put_record(numbers, i, s.line);
    ledger::put_serial(numbers, i, booked.serials[i]);
    ledger::put_used(counts, i, booked.used[i], booked.in_use as u32);
    answers::in_numbers(answer)
}
