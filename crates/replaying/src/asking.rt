// What a line asks, done, and its row written.
ghost use Rattle.std.specs.Prelude.{◌≡◌, ◌+◌, ◌≤◌, min, length};
ghost use Rattle.replaying.specs.Desk.{row_room};
ghost use Rattle.replaying.specs.Lents.{desk, SameReferences, SameLengths};
ghost use Rattle.replaying.specs.Inner.Asking.{ask_leaves, asked_by, line_of, RowPut};

use crate::Lent;
use answers::Answered;
use listing::Item;
use looking::Kind;

// What a line asks: a byte has come, seconds have passed, or a reader takes into a buffer of so many bytes.
pub fn ask(item: Item, lent: &mut Lent<'_>) -> Answered
    ensures same_references { SameReferences lent.old lent.new }
    ensures same_lengths { SameLengths lent.old lent.new }
    ensures asked { ask_leaves result (desk lent.new) ≡ asked_by item (desk lent.old) }
{
    let numbers = &mut *lent.numbers;
    let counts = &mut *lent.counts;
    let journal = &mut *lent.journal;
    let unfinished = &mut *lent.unfinished;
    let frames = &mut *lent.frames;
    let buffer = &mut *lent.buffer;
    match item {
        Item::Event(e) => match e.kind {
            Kind::Byte(b) => calls::byte(e.line, b, numbers, counts, journal, unfinished, frames),
            Kind::Seconds(s) => calls::seconds(
                e.line, s, numbers, counts, journal, unfinished, frames,
            ),
        },
        Item::Taking(line, size) => {
            let size = size.min(buffer.len());
            reader::take(line, numbers, counts, journal, &mut buffer[..size])
        }
    }
}

// The row of an answer, and where it ends; there is room for it.
pub fn put_row(number: u64, item: Item, answered: Answered, out: &mut [u8], put: usize) -> usize
    requires { put + row_room ≤ length out.old }
    ensures { RowPut number (line_of item) answered.number answered.length out.old put result out.new }
{
    let line = line_of(item);
    listing::write_row(number, line, answered.number, answered.length, out, put).unwrap()
}

fn line_of(item: Item) -> u8
    ensures { result ≡ line_of item }
{
    match item {
        Item::Event(e) => e.line,
        Item::Taking(line, _) => line,
    }
}
