// A block with results that is no repeat: its finding is stored, or not, and the line is left with what the journal says.
ghost use Rattle.std.specs.Prelude.{◌≤◌, ◌≡◌, length};
ghost use Rattle.settings.specs.Settings.{results_length, block_limit};
ghost use Rattle.ledger.specs.Ledgers.{Narrow};
ghost use Rattle.looking.specs.declared.Kind.TheVariants.{Byte};
ghost use Rattle.keeping.specs.Keeping.{reader_of};
ghost use Rattle.uploads.specs.Uploads.{filing};
ghost use Rattle.uploads.specs.Inner.Ruled.{Room, Acted};
ghost use Rattle.uploads.specs.Inner.Lents.{Reads, own_block, filing_ruling, Leaves, SameReferences};

use crate::{Lent, acting, storing};
use answers::{Answer, Answered};
use journal::{Ledger, Refusal};
use layout::{COUNTS, NUMBERS};
use line::Line;
use settings::Patient;

pub fn file(
    patient: Patient,
    line: Line,
    i: u8,
    byte: u8,
    block: &[u8],
    lent: &mut Lent<'_>,
) -> Answered
    requires { Reads lent.old patient line i × (block.now ≡ own_block lent.old line i byte) × (length block.now ≡ results_length patient) }
    ensures same_references { SameReferences lent.old lent.new }
    ensures ruled { Leaves lent.old patient line i (Byte byte) (filing_ruling lent.old patient i block.now) result lent.new }
{
    let numbers = &mut *lent.numbers;
    let counts = &mut *lent.counts;
    let journal = &mut *lent.journal;
    let frames = &mut *lent.frames;
    let ledger = ledger::ledger_of(numbers, counts);
    let stored = storing::store(patient, ledger, i, block, journal);
    by_room(
        stored.answer,
        stored.ledger,
        line,
        i as usize,
        byte,
        block,
        numbers,
        counts,
        frames,
    )
}

// What the journal's answer comes to, with its ledger then.
fn by_room(
    verdict: Result<(), Refusal>,
    ledger: Ledger,
    line: Line,
    i: usize,
    byte: u8,
    block: &[u8],
    numbers: &mut [u16; NUMBERS],
    counts: &mut [u32; COUNTS],
    frames: &mut [u8],
) -> Answered
    requires { Room line i frames.old × (length block.now ≤ block_limit) × Narrow ledger }
    ensures { Acted numbers.old counts.old frames.old line i byte block.now ledger
        (filing verdict (reader_of numbers.old i)) result numbers.new counts.new frames.new }
{
    match verdict {
        Ok(()) => {
            acting::file(line, i, byte, block, ledger, numbers, counts, frames);
            answers::in_numbers(Answer::Filed)
        }
        Err(Refusal::NoRoom) => {
            let reader = keeping::reader_of(numbers, i);
            acting::settle(line, i, byte, reader, numbers, frames);
            answers::in_numbers(Answer::Crowded)
        }
        Err(Refusal::Broken) => answers::in_numbers(Answer::Broken),
        Err(Refusal::NoLine) => answers::in_numbers(Answer::NoLine),
        Err(Refusal::WrongSize) => answers::in_numbers(Answer::WrongSize),
        Err(Refusal::Malformed) => answers::in_numbers(Answer::Malformed),
    }
}
