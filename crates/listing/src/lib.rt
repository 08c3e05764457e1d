// The replay listing: a line of a trace read, and each line of the listing written into lent memory.
#![tactic(auto)]

ghost use Rattle.std.specs.Prelude.{◌≡◌};
ghost use Rattle.listing.specs.Items.{item_of};
ghost use Rattle.listing.specs.Texts.{header_text, row_text, total_text, fault_text, TextWritten};

use looking::Event;

mod reading; // reading.rt: what stands behind a line's letter
mod rows; // rows.rt: the columns of an event's row

// What a line of a trace says: an event, or a taking with its line and its buffer's length.
#[derive(Clone, Copy)]
pub enum Item {
    Event(Event),
    Taking(u8, usize),
}

// The longest line that is looked at: a longer one is not an event.
pub const LINE_LIMIT: usize = 4096;

// The shortest event, as `0 S 1`.
const SHORTEST: usize = 5;

const HEADER: [u8; 24] = *b"event line answer reply\n";

const EVENTS: [u8; 8] = *b" events\n";

const LINE: [u8; 5] = *b"line ";

const NO_EVENT: [u8; 15] = *b": not an event\n";

// Reads one line of a trace, without its newline, if it says anything.
#[tactic(auto, unfolding(crate::specs::Items::item_of, crate::specs::Items::is_laid_out), using(memory::proofs::Branches::branches))]
pub fn read(text: &[u8]) -> Option<Item>
    ensures { result ≡ item_of text.now }
{
    if text.len() < SHORTEST {
        return None;
    }
    if LINE_LIMIT < text.len() {
        return None;
    }
    let line = match text[0] {
        digit @ b'0'..=b'9' => digit - b'0',
        _ => return None,
    };
    if text[1] != b' ' {
        return None;
    }
    if text[3] != b' ' {
        return None;
    }
    reading::operand(line, text)
}

// Writes the listing's first line.
pub fn write_header(out: &mut [u8], at: usize) -> Option<usize>
    ensures { TextWritten header_text out.old at result out.new }
{
    if !memory::copy_at(out, at, &HEADER) {
        return None;
    }
    Some(at + HEADER.len())
}

// Writes the row of an event or a taking: its number, its line, the answer's number, and the reply or, for an entry taken, its length.
pub fn write_row(
    event: u64,
    line: u8,
    number: u8,
    length: usize,
    out: &mut [u8],
    at: usize,
) -> Option<usize>
    ensures { TextWritten (row_text event line number length) out.old at result out.new }
{
    if out.len() < at {
        return None;
    }
    if !rows::has_room(event, line, number, length, out.len() - at) {
        return None;
    }
    Some(rows::put(event, line, number, length, out, at))
}

// Writes the last line of a listing that ran to its end.
pub fn write_total(events: u64, out: &mut [u8], at: usize) -> Option<usize>
    ensures { TextWritten (total_text events) out.old at result out.new }
{
    let n = decimal::size(events) + EVENTS.len();
    if out.len() < at {
        return None;
    }
    if out.len() - at < n {
        return None;
    }
    let end = decimal::put(events, out, at);
    memory::copy_at(out, end, &EVENTS);
    Some(at + n)
}

// Writes the last line of a listing that ends at a line that is not an event.
pub fn write_fault(line: u64, out: &mut [u8], at: usize) -> Option<usize>
    ensures { TextWritten (fault_text line) out.old at result out.new }
{
    let n = LINE.len() + decimal::size(line) + NO_EVENT.len();
    if out.len() < at {
        return None;
    }
    if out.len() - at < n {
        return None;
    }
    memory::copy_at(out, at, &LINE);
    let number = at + LINE.len();
    let end = decimal::put(line, out, number);
    memory::copy_at(out, end, &NO_EVENT);
    Some(at + n)
}
