// A whole block: it is gathered in a scratch, heard, and acted on.
ghost use Rattle.std.specs.Prelude.{◌≡◌, length};
ghost use Rattle.settings.specs.Settings.{block_limit};
ghost use Rattle.looking.specs.declared.Kind.TheVariants.{Byte};
ghost use Rattle.uploads.specs.Inner.Lents.{Reads, own_block, block_ruling, Leaves, SameReferences};

use crate::{Lent, acting, filing, gathering, hearing};
use answers::Answered;
use line::Line;
use settings::{BLOCK_LIMIT, Patient};

#[inline(never)] // a frame of its own: neither a byte that is only added nor a message that `calls` decides needs its places
pub fn end_block(patient: Patient, line: Line, i: u8, byte: u8, lent: &mut Lent<'_>) -> Answered
    requires { Reads lent.old patient line i }
    ensures same_references { SameReferences lent.old lent.new }
    ensures ruled { Leaves lent.old patient line i (Byte byte) (block_ruling lent.old patient line i (own_block lent.old line i byte)) result lent.new }
{
    let mut place = [0u8; BLOCK_LIMIT];
    in_place(&mut place, patient, line, i, byte, lent)
}

fn in_place(
    place: &mut [u8],
    patient: Patient,
    line: Line,
    i: u8,
    byte: u8,
    lent: &mut Lent<'_>,
) -> Answered
    requires { (length place.old ≡ block_limit) × Reads lent.old patient line i }
    ensures same_references { SameReferences lent.old lent.new }
    ensures ruled { Leaves lent.old patient line i (Byte byte) (block_ruling lent.old patient line i (own_block lent.old line i byte)) result lent.new }
{
    let frames = &mut *lent.frames;
    gathering::gather(place, line, i as usize, byte, frames);
    let n = line.collected as usize + 1;
    by_block(patient, line, i, byte, &place[..n], lent)
}

fn by_block(
    patient: Patient,
    line: Line,
    i: u8,
    byte: u8,
    block: &[u8],
    lent: &mut Lent<'_>,
) -> Answered
    requires { Reads lent.old patient line i × (block.now ≡ own_block lent.old line i byte) }
    ensures same_references { SameReferences lent.old lent.new }
    ensures ruled { Leaves lent.old patient line i (Byte byte) (block_ruling lent.old patient line i block.now) result lent.new }
{
    let heard = hearing::hear(patient, i as usize, block, lent.numbers);
    let reader = heard.reader;
    let answer = heard.answer;
    if !heard.stores {
        let numbers = &mut *lent.numbers;
        let frames = &mut *lent.frames;
        acting::settle(line, i as usize, byte, reader, numbers, frames);
        return answers::in_numbers(answer);
    }
    filing::file(patient, line, i, byte, block, lent)
}
