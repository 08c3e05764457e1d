// A strip reader's line, over the state that a host keeps in plain numbers (`layout` says where each stands).
#![tactic(auto)]

ghost use Rattle.std.specs.Prelude.{◌≡◌};
ghost use Rattle.looking.specs.declared.Kind.TheVariants.{Byte};
ghost use Rattle.uploads.specs.Calls.{Uploading};

use answers::{Answer, Answered};
use layout::{COUNTS, NUMBERS};
use line::Line;
use looking::{Event, Kind};
use settings::{Dialogue, Patient};
use strips::Sight;

mod acting; // acting.rt: what is done with the line
mod filing; // filing.rt: a block with results
mod gathering; // gathering.rt: the block that a byte ends
mod hearing; // hearing.rt: what it comes to
mod storing; // storing.rt: its finding stored
mod whole; // whole.rt: a whole block

// An event on a strip reader's line: 40, 41, 42, which is also for a line of frames, then its work. No unfinished byte is written.
pub fn event(
    e: Event,
    numbers: &mut [u16; NUMBERS],
    counts: &mut [u32; COUNTS],
    journal: &mut [u8],
    unfinished: &[u8],
    frames: &mut [u8],
) -> Answered
    ensures { Uploading
        (record { numbers = numbers.entry.now; counts = counts.old; memory = record { journal = journal.entry.now; unfinished = unfinished.now; frames = frames.old } })
        e result
        (record { numbers = numbers.exit.now; counts = counts.new; memory = record { journal = journal.exit.now; unfinished = unfinished.now; frames = frames.new } }) }
{
    let i = e.line as usize;
    if memory::LINES <= i {
        return answers::in_numbers(Answer::NoLine);
    }
    if !looking::are_right(journal.len(), unfinished.len(), frames.len()) {
        return answers::in_numbers(Answer::WrongSize);
    }
    if !numbers::is_within(numbers, i) {
        return answers::in_numbers(Answer::BeyondLimits);
    }
    let line = numbers::record_of(numbers, i);
    let settings = line.settings;
    let dialogue = settings.dialogue;
    match dialogue {
        Dialogue::Frames => answers::in_numbers(Answer::BeyondLimits),
        Dialogue::Blocks(patient) => {
            let mut lent = Lent {
                numbers,
                counts,
                journal,
                frames,
            };
            lent.on_line(patient, line, e)
        }
    }
}

// What a host lends to an event on a strip reader's line, but for the unfinished texts. `event` takes it apart, as `calls` hands it over.
#[derive(Drop)]
struct Lent<'a> {
    numbers: &'a mut [u16; NUMBERS],
    counts: &'a mut [u32; COUNTS],
    journal: &'a mut [u8],
    frames: &'a mut [u8],
}

impl Lent<'_> {
    ghost use Rattle.uploads.specs.Inner.Lents.{Reads, event_ruling, Leaves, SameReferences};

    // Past 40 to 42: seconds are ignored.
    fn on_line(&mut self, patient: Patient, line: Line, e: Event) -> Answered
        requires { Reads self.old patient line e.line }
        ensures same_references { SameReferences self.old self.new }
        ensures ruled { Leaves self.old patient line e.line e.kind (event_ruling self.old patient line e.line e.kind) result self.new }
    {
        let kind = e.kind;
        match kind {
            Kind::Byte(byte) => self.on_byte(patient, line, e.line, byte),
            Kind::Seconds(_) => answers::nothing(),
        }
    }

    // A byte is ignored, or added to the block, or ends it.
    fn on_byte(&mut self, patient: Patient, line: Line, i: u8, byte: u8) -> Answered
        requires { Reads self.old patient line i }
        ensures same_references { SameReferences self.old self.new }
        ensures ruled { Leaves self.old patient line i (Byte byte) (event_ruling self.old patient line i (Byte byte)) result self.new }
    {
        let sight = strips::see(patient, line, byte);
        match sight {
            Sight::Ignores => answers::nothing(),
            Sight::Adds => {
                let numbers = &mut *self.numbers;
                let frames = &mut *self.frames;
                acting::add(line, i as usize, byte, numbers, frames);
                answers::nothing()
            }
            Sight::Judges => {
                // Lent anew: if `self` itself went on, it would lie in memory for every byte, and be written and read there.
                let mut lent = Lent {
                    numbers: &mut *self.numbers,
                    counts: &mut *self.counts,
                    journal: &mut *self.journal,
                    frames: &mut *self.frames,
                };
                whole::end_block(patient, line, i, byte, &mut lent)
            }
        }
    }
}
