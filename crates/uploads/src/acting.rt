// What is done with a reader's line once all is known: the only functions of this crate that write numbers, counts or frames.
ghost use Rattle.std.specs.Prelude.{◌≤◌, ◌≡◌, length};
ghost use Rattle.settings.specs.Settings.{block_limit};
ghost use Rattle.ledger.specs.Ledgers.{Narrow, with_used};
ghost use Rattle.numbers.specs.Plain.{with_line};
ghost use Rattle.uploads.specs.Uploads.{added_line, judged_line};
ghost use Rattle.uploads.specs.Inner.Ruled.{Room, byte_added, settled_numbers, filed_numbers};

use journal::Ledger;
use layout::{COUNTS, NUMBERS};
use line::{Line, State};
use strips::Reader;

// A byte is added to the line's block.
pub fn add(line: Line, i: usize, byte: u8, numbers: &mut [u16; NUMBERS], frames: &mut [u8])
    requires { Room line i frames.old }
    ensures { (numbers.new ≡ with_line numbers.old i (added_line line)) × (frames.new ≡ byte_added line i byte frames.old) }
{
    put_byte(line, i, byte, frames);
    let after = line.with_collected(line.collected + 1).begun();
    numbers::put_record(numbers, i, after);
}

// A block was judged, and so much is kept of the reader.
pub fn settle(
    line: Line,
    i: usize,
    byte: u8,
    reader: Reader,
    numbers: &mut [u16; NUMBERS],
    frames: &mut [u8],
)
    requires { Room line i frames.old }
    ensures { (numbers.new ≡ settled_numbers numbers.old i line reader) × (frames.new ≡ byte_added line i byte frames.old) }
{
    put_byte(line, i, byte, frames);
    numbers::put_record(numbers, i, judged(line));
    keeping::put_reader(numbers, i, reader);
}

// A block was judged and its finding stored, with this ledger after it: the block is kept.
pub fn file(
    line: Line,
    i: usize,
    byte: u8,
    block: &[u8],
    ledger: Ledger,
    numbers: &mut [u16; NUMBERS],
    counts: &mut [u32; COUNTS],
    frames: &mut [u8],
)
    requires { Room line i frames.old × (length block.now ≤ block_limit) × Narrow ledger }
    ensures { (numbers.new ≡ filed_numbers numbers.old i line ledger block.now)
        × (counts.new ≡ with_used counts.old i ledger)
        × (frames.new ≡ byte_added line i byte frames.old) }
{
    put_byte(line, i, byte, frames);
    numbers::put_record(numbers, i, judged(line));
    ledger::put_serial(numbers, i, ledger.serials[i]);
    keeping::put_reader(numbers, i, strips::filed());
    keeping::keep(numbers, i, block);
    ledger::put_used(counts, i, ledger.used[i], ledger.in_use as u32);
}

fn put_byte(line: Line, i: usize, byte: u8, frames: &mut [u8])
    requires { Room line i frames.old }
    ensures { frames.new ≡ byte_added line i byte frames.old }
{
    let at = i * memory::FRAME_PART + line.collected as usize;
    frames[at] = byte;
}

// The counts are 0, and the line is neutral.
fn judged(line: Line) -> Line
    ensures { result ≡ judged_line line }
{
    Line {
        state: State::Neutral,
        collected: 0,
        joined: 0,
        seconds: 0,
        ..line
    }
}
