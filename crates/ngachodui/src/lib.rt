// The gateway for hosts in C and Rust: what `calls`, `orders`, `layout`, `texts` and `message` do, under the names that hosts link (include/ngachodui.h).
// A host keeps the state in plain numbers in its own memory, and lends it to each call; nothing is kept between calls.
#![tactic(auto)]

ghost use Rattle.std.specs.Prelude.{◌≡◌};
ghost use Rattle.looking.specs.declared.Kind.TheVariants.{Byte, Seconds};
ghost use Rattle.faults.specs.Message.{is_message};
ghost use Rattle.layout.specs.Layout.{layout, Fresh, Started};
ghost use Rattle.calls.specs.Calls.{Calling};
ghost use Rattle.orders.specs.Calls.{Sent, Fetched};
ghost use Rattle.reader.specs.Takings.{Taken};
ghost use Rattle.texts.specs.Texts.{CutFrames, Escaped, Unescaped, RecordsRead};

use answers::{Answered, Made};
use layout::Layout;

// A byte has come on a line.
#[unsafe(no_mangle)]
pub extern "C" fn ngachodui_byte(
    line: u8,
    byte: u8,
    numbers: &mut [u16; layout::NUMBERS],
    counts: &mut [u32; layout::COUNTS],
    journal: &mut [u8],
    unfinished: &mut [u8],
    frames: &mut [u8],
) -> Answered
    ensures { Calling
        (record { numbers = numbers.entry.now; counts = counts.old; memory = record { journal = journal.entry.now; unfinished = unfinished.old; frames = frames.old } })
        (record { line = line; kind = Byte byte }) result
        (record { numbers = numbers.exit.now; counts = counts.new; memory = record { journal = journal.exit.now; unfinished = unfinished.new; frames = frames.new } }) }
{
    calls::byte(line, byte, numbers, counts, journal, unfinished, frames)
}

// Seconds have passed on a line.
#[unsafe(no_mangle)]
pub extern "C" fn ngachodui_seconds(
    line: u8,
    seconds: u8,
    numbers: &mut [u16; layout::NUMBERS],
    counts: &mut [u32; layout::COUNTS],
    journal: &mut [u8],
    unfinished: &mut [u8],
    frames: &mut [u8],
) -> Answered
    ensures { Calling
        (record { numbers = numbers.entry.now; counts = counts.old; memory = record { journal = journal.entry.now; unfinished = unfinished.old; frames = frames.old } })
        (record { line = line; kind = Seconds seconds }) result
        (record { numbers = numbers.exit.now; counts = counts.new; memory = record { journal = journal.exit.now; unfinished = unfinished.new; frames = frames.new } }) }
{
    calls::seconds(line, seconds, numbers, counts, journal, unfinished, frames)
}

// A text is to be sent on a line.
#[unsafe(no_mangle)]
pub extern "C" fn ngachodui_send(
    line: u8,
    text: &[u8],
    numbers: &mut [u16; layout::NUMBERS],
    journal: &[u8],
    unfinished: &mut [u8],
    frames: &[u8],
) -> Answered
    ensures { Sent numbers.old line text.now
        (record { journal = journal.entry.now; unfinished = unfinished.old; frames = frames.now })
        result numbers.new unfinished.new }
{
    orders::send(line, text, numbers, journal, unfinished, frames)
}

// The frame that a line offers, or our last reply to its strip reader, goes to the start of out.
#[unsafe(no_mangle)]
pub extern "C" fn ngachodui_outgoing(
    line: u8,
    numbers: &[u16; layout::NUMBERS],
    unfinished: &[u8],
    out: &mut [u8],
) -> Made
    ensures { Fetched numbers.now line unfinished.now out.old result out.new }
{
    orders::outgoing(line, numbers, unfinished, out)
}

// The text of a line's oldest entry goes to the start of the buffer.
#[unsafe(no_mangle)]
pub extern "C" fn ngachodui_take(
    line: u8,
    numbers: &[u16; layout::NUMBERS],
    counts: &mut [u32; layout::COUNTS],
    journal: &mut [u8],
    buffer: &mut [u8],
) -> Answered
    ensures { Taken numbers.now line
        (record { counts = counts.entry.now; journal = journal.old; buffer = buffer.old })
        result (record { counts = counts.exit.now; journal = journal.new; buffer = buffer.new }) }
{
    reader::take(line, numbers, counts, journal, buffer)
}

// Every line fresh, the journal empty. The version of the layout ends the name: an object of another version finds no such function.
#[unsafe(no_mangle)]
pub extern "C" fn ngachodui_fresh_3(
    numbers: &mut [u16; layout::NUMBERS],
    counts: &mut [u32; layout::COUNTS],
)
    ensures { Fresh numbers.new counts.new }
{
    layout::fresh(numbers, counts);
}

// Every line fresh and set to speak what is said (0 frames, 10 or 13 a strip reader's blocks), the journal empty: 0; or 42, and nothing
// is changed.
#[unsafe(no_mangle)]
pub extern "C" fn ngachodui_start_3(
    speaks: &[u16; memory::LINES],
    numbers: &mut [u16; layout::NUMBERS],
    counts: &mut [u32; layout::COUNTS],
) -> u8
    ensures { Started speaks.now numbers.old counts.old result numbers.new counts.new }
{
    layout::start(speaks, numbers, counts)
}

// The layout, for a host to compare with its own.
#[unsafe(no_mangle)]
pub extern "C" fn ngachodui_sizes() -> Layout
    ensures { result ≡ layout }
{
    layout::sizes()
}

// Cuts a message into frames.
#[unsafe(no_mangle)]
pub extern "C" fn ngachodui_cut(text: &[u8], out: &mut [u8]) -> Made
    ensures { CutFrames text.now out.old result out.new }
{
    texts::cut(text, out)
}

// Escapes the delimiters of a text, four bytes in the order of a header. The 2: an object that was compiled before they were handed over
// finds no such function.
#[unsafe(no_mangle)]
pub extern "C" fn ngachodui_escape_2(
    delimiters: &[u8; kinds::DELIMITERS],
    text: &[u8],
    out: &mut [u8],
) -> Made
    ensures { Escaped delimiters.now text.now out.old result out.new }
{
    texts::escape(delimiters, text, out)
}

// Takes the escapes out of a component.
#[unsafe(no_mangle)]
pub extern "C" fn ngachodui_unescape_2(
    delimiters: &[u8; kinds::DELIMITERS],
    component: &[u8],
    out: &mut [u8],
) -> Made
    ensures { Unescaped delimiters.now component.now out.old result out.new }
{
    texts::unescape(delimiters, component, out)
}

// Reads a message: of each record its letter, where it starts, how long it is before its CR, and the number of its owner, from 1, or 0.
#[unsafe(no_mangle)]
pub extern "C" fn ngachodui_read(
    text: &[u8],
    types: &mut [u8],
    offsets: &mut [u16],
    lengths: &mut [u16],
    owners: &mut [u16],
) -> Made
    ensures { RecordsRead text.now types.old offsets.old lengths.old owners.old
        result types.new offsets.new lengths.new owners.new }
{
    texts::read(text, types, offsets, lengths, owners)
}

// Whether a text is a message.
#[unsafe(no_mangle)]
pub extern "C" fn ngachodui_is_message(text: &[u8]) -> bool
    ensures { result ≡ is_message text.now }
{
    message::is_message(text)
}
