// Bytes in lent memory. Every function is total: where the bytes do not fit, it changes nothing and says so.
#![tactic(auto)]

ghost use Rattle.std.specs.Prelude.{◌≡◌, ◌+◌, ◌≤◌, length};
ghost use Rattle.memory.specs.Sizes.{journal_size};
ghost use Rattle.memory.specs.Parts.{part, splice};
ghost use Rattle.memory.specs.Moves.{Copied, ClosedUp};

// The sizes, each named once; specs/Sizes.antt says what each is.
pub const LINES: usize = 8;

pub const MESSAGE_LIMIT: usize = 4000;

pub const FRAME_LIMIT: usize = 247;

pub const JOURNAL_SIZE: usize = 32768;

pub const FRAME_PART: usize = 246;

pub const FRAMES_SIZE: usize = LINES * FRAME_PART;

pub const UNFINISHED_SIZE: usize = LINES * MESSAGE_LIMIT;

// What moves at once: no memory of the gateway in which bytes move is longer than the journal.
const PIECE: usize = JOURNAL_SIZE;

// Copies src over the start of dst.
pub fn copy(dst: &mut [u8], src: &[u8]) -> bool
    ensures { Copied dst.old 0 src.now result dst.new }
{
    if dst.len() < src.len() {
        return false;
    }
    dst[..src.len()].copy_from_slice(src);
    true
}

// Copies src over the bytes of area from `at` on: the part from there is lent to the copier.
pub fn copy_at(area: &mut [u8], at: usize, src: &[u8]) -> bool
    ensures { Copied area.old at src.now result area.new }
{
    if area.len() < at {
        return false;
    }
    if area.len() - at < src.len() {
        return false;
    }
    copy(&mut area[at..], src)
}

// Closes the gap of `gap` bytes at `at` in the first `end` bytes: the later ones move down, in front of a tail that stays.
pub fn close_up(area: &mut [u8], at: usize, gap: usize, end: usize) -> bool
    ensures { ClosedUp area.old at gap end result area.new }
{
    if area.len() < end {
        return false;
    }
    if end < at {
        return false;
    }
    if end - at < gap {
        return false;
    }
    let last = end - gap;
    for i in (at..last).step_by(PIECE) {
        move_down(area, i, gap, PIECE.min(last - i));
    }
    true
}

// Moves the n bytes behind the gap at `at` down by the gap. They go by way of a buffer, which compiles to one memmove. By std's `copy_within`,
// which moves 16 bytes at a time, a taking of 8 entries of 4,000 bytes costs 7,032 instructions in place of 3,525, past its bar of 3,879.
fn move_down(area: &mut [u8], at: usize, gap: usize, n: usize)
    requires within_buffer { n ≤ journal_size }
    requires within_area { at + gap + n ≤ length area.old }
    ensures { area.new ≡ splice area.old at (part area.old (at + gap) n) }
{
    let from = at + gap;
    let mut buffer = [0u8; PIECE];
    buffer[..n].copy_from_slice(&area[from..from + n]);
    area[at..at + n].copy_from_slice(&buffer[..n]);
}
