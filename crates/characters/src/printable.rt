// Texts of printable bytes, as most are: told without the table, in a loop with no way out of it, which takes many bytes at a time.
ghost use Rattle.std.specs.Prelude.{◌≡◌, nat_le};
ghost use Rattle.memory.specs.Tests.{all};
ghost use Rattle.characters.specs.Inner.Printable.{printable};

use super::CR;

// How far a printable byte can lie past the space: '~' does.
const FARTHEST: u8 = 0x5e;

// Whether every byte of the text is CR or from ' ' to '~'.
pub fn is_printable(text: &[u8]) -> bool
    ensures { result ≡ all printable text.now }
{
    let mut most: u8 = 0;
    for b in text {
        most = most.max(past_space(*b));
    }
    most <= FARTHEST
}

// How far b lies past the space, modulo 256; CR is taken for a space.
fn past_space(b: u8) -> u8
    ensures { nat_le result 0x5e ≡ printable b }
{
    if b == CR {
        return 0;
    }
    b.wrapping_add(0xe0)
}
