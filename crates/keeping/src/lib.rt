// What is kept of a strip reader in plain numbers, as a host keeps it (`layout` says where each stands).
#![tactic(auto)]

ghost use Rattle.std.specs.Prelude.{◌≡◌};
ghost use Rattle.keeping.specs.Keeping.{yes, reader_at, reader_after, is_kept, block_after};

use layout::{BLOCKS, FIELDS, KEPT, NUMBERS, REPLY, SINCE};
use settings::BLOCK_LIMIT;
use strips::Reader;

// What is kept of a line's reader.
pub fn reader_of(numbers: &[u16; NUMBERS], i: usize) -> Reader
    ensures { result ≡ reader_at numbers.now i }
{
    if memory::LINES <= i {
        return Reader::fresh();
    }
    let at = i * FIELDS;
    Reader {
        reply: strips::replied_of(numbers[at + REPLY]),
        since: numbers[at + SINCE] == 1,
        kept: numbers[at + KEPT] == 1,
    }
}

// Puts what is kept of a line's reader.
pub fn put_reader(numbers: &mut [u16; NUMBERS], i: usize, reader: Reader)
    ensures { numbers.new ≡ reader_after numbers.old i reader }
{
    if memory::LINES <= i {
        return;
    }
    let at = i * FIELDS;
    numbers[at + REPLY] = strips::reply_number(reader.reply);
    numbers[at + SINCE] = u16::from(reader.since);
    numbers[at + KEPT] = u16::from(reader.kept);
}

// Whether a line's last stored block begins with these bytes, compared as it lies.
pub fn is_kept(numbers: &[u16; NUMBERS], i: usize, block: &[u8]) -> bool
    ensures { result ≡ is_kept numbers.now i block.now }
{
    if memory::LINES <= i {
        return false;
    }
    if BLOCK_LIMIT < block.len() {
        return false;
    }
    let at = BLOCKS + i * BLOCK_LIMIT;
    let kept = &numbers[at..at + block.len()];
    block.iter().zip(kept).all(|(&b, &n)| u16::from(b) == n)
}

// Keeps a block as a line's last stored one.
pub fn keep(numbers: &mut [u16; NUMBERS], i: usize, block: &[u8])
    ensures { numbers.new ≡ block_after numbers.old i block.now }
{
    if memory::LINES <= i {
        return;
    }
    if BLOCK_LIMIT < block.len() {
        return;
    }
    let at = BLOCKS + i * BLOCK_LIMIT;
    for (k, &b) in block.iter().enumerate() {
        numbers[at + k] = u16::from(b);
    }
}
