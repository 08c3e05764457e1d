// What a host keeps in plain numbers:
//   numbers  sixteen for each line: state (0 neutral, 1 waiting, 2 inside, 3 asking, 4 pausing, 5 offering), collected, joined,
//            seconds, next number, last number (0 for none, else one more than it), refusing (0 or 1), the serial of its next
//            entry, tries and place of its sending (0 where it is not sending), what it speaks (0 frames, else a strip reader's blocks,
//            with a patient number of 10 or 13), and of such a reader our last reply (0 none, 1 more, 2 again), whether it asked since
//            its last stored block, whether there is one (0 or 1 each); two are spare. Behind all lines, for each line 239: the bytes
//            of that block
//   counts   each line's used count, then how many bytes of the journal are in use
#![tactic(auto)]

ghost use Rattle.std.specs.Prelude.{◌≡◌};
ghost use Rattle.layout.specs.Inner.Speaks.{all_put};
ghost use Rattle.layout.specs.Layout.{layout, is_spoken, can_start, Fresh, Started};

// A line's numbers are so many; the first is its state, and the others stand so far behind it.
pub const FIELDS: usize = 16;

pub const COLLECTED: usize = 1;

pub const JOINED: usize = 2;

pub const SECONDS: usize = 3;

pub const NEXT: usize = 4;

pub const LAST: usize = 5;

pub const REFUSING: usize = 6;

pub const SERIAL: usize = 7;

pub const TRIES: usize = 8;

pub const PLACE: usize = 9;

pub const SPEAKS: usize = 10;

pub const REPLY: usize = 11;

pub const SINCE: usize = 12;

pub const KEPT: usize = 13;

// Where the blocks begin, and how many numbers there are; and how many counts: each line's used count, then the bytes in use.
pub const BLOCKS: usize = memory::LINES * FIELDS;

pub const NUMBERS: usize = BLOCKS + memory::LINES * settings::BLOCK_LIMIT;

pub const COUNTS: usize = memory::LINES + 1;

// What a line can be set to speak.
pub const FRAMES: u16 = 0;

pub const BLOCKS_OF_10: u16 = 10;

pub const BLOCKS_OF_13: u16 = 13;

// The version of the layout, which ends the names of `ngachodui_fresh_3` and `ngachodui_start_3` too: an object of another version
// finds no such function.
const VERSION: u32 = 3;

// The layout that the library was compiled for: its version, how many numbers and counts, and the sizes of the three memories.
#[repr(C)]
#[derive(Clone, Copy)]
pub struct Layout {
    pub version: u32,
    pub numbers: u32,
    pub counts: u32,
    pub journal: u32,
    pub unfinished: u32,
    pub frames: u32,
}

// Every line fresh, the journal empty: each next number is 1, and all other numbers are 0, so that every line speaks frames.
pub fn fresh(numbers: &mut [u16; NUMBERS], counts: &mut [u32; COUNTS])
    ensures { Fresh numbers.new counts.new }
{
    *numbers = [0u16; NUMBERS];
    for i in 0..memory::LINES {
        numbers[i * FIELDS + NEXT] = 1;
    }
    *counts = [0u32; COUNTS];
}

// Every line fresh and set to speak what is said; or 42, and nothing is changed, where that is nothing that a line can speak. A number, as
// `ngachodui_start_3` hands it on to C.
pub fn start(
    speaks: &[u16; memory::LINES],
    numbers: &mut [u16; NUMBERS],
    counts: &mut [u32; COUNTS],
) -> u8
    ensures { Started speaks.now numbers.old counts.old result numbers.new counts.new }
{
    if !can_start(speaks) {
        return 42;
    }
    fresh(numbers, counts);
    put_speaks(speaks, numbers);
    0
}

fn put_speaks(speaks: &[u16; memory::LINES], numbers: &mut [u16; NUMBERS])
    ensures { numbers.new ≡ all_put speaks.now numbers.old }
{
    for (i, n) in speaks.iter().enumerate() {
        numbers[i * FIELDS + SPEAKS] = *n;
    }
}

fn can_start(speaks: &[u16; memory::LINES]) -> bool
    ensures { result ≡ can_start speaks.now }
{
    speaks.iter().all(|n| is_spoken(*n))
}

// Whether a line can speak this.
fn is_spoken(n: u16) -> bool
    ensures { result ≡ is_spoken n }
{
    if n == FRAMES {
        return true;
    }
    if n == BLOCKS_OF_10 {
        return true;
    }
    n == BLOCKS_OF_13
}

// The layout, for a host to compare with its own.
pub fn sizes() -> Layout
    ensures { result ≡ layout }
{
    Layout {
        version: VERSION,
        numbers: NUMBERS as u32,
        counts: COUNTS as u32,
        journal: memory::JOURNAL_SIZE as u32,
        unfinished: memory::UNFINISHED_SIZE as u32,
        frames: memory::FRAMES_SIZE as u32,
    }
}
