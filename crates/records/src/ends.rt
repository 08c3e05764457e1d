// The CRs of a text: how many of its records are ended.
ghost use Rattle.std.specs.Prelude.{◌≡◌, ◌≤◌, length};
ghost use Rattle.memory.specs.Tests.{is, count};
ghost use Rattle.characters.specs.Control.{cr};

use characters::CR;

// So many bytes are counted at a time: their count fits one byte, so that sixteen of them can be counted at once.
const BLOCK: usize = 128;

fn count_block(text: &[u8]) -> u8
    requires { length text.now ≤ 255 }
    ensures { result ≡ count (is cr) text.now }
{
    let mut n: u8 = 0;
    for b in text {
        if *b == CR {
            n += 1;
        }
    }
    n
}

// The number of CRs.
pub fn count(text: &[u8]) -> usize
    ensures { result ≡ count (is cr) text.now }
{
    let mut n: usize = 0;
    for block in text.chunks(BLOCK) {
        n += count_block(block) as usize;
    }
    n
}
