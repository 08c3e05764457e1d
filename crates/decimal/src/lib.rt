// A number in decimal: how many digits it has, and the digits in lent memory, which are written more than one a turn, for speed.
#![tactic(auto)]

ghost use Rattle.std.specs.Prelude.{◌≡◌, ◌≤◌, leb, length};
ghost use Rattle.decimal.specs.Decimal.{decimal_of, most_digits};
ghost use Rattle.decimal.specs.Putting.{DecimalPut};

mod writing; // writing.rt: the digits where there is room for them

// The most digits of a 64-bit number.
const MOST_DIGITS: usize = 20;

// How many digits n has.
pub fn size(n: u64) -> usize
    ensures { (result ≡ length (decimal_of n)) × (result ≤ most_digits) }
{
    n.checked_ilog10().map_or(1, |log| log as usize + 1)
}

// Writes the digits of n at `at`, and says where they end: at `at` itself, with nothing written, where there is no room for them.
pub fn put(n: u64, out: &mut [u8], at: usize) -> usize
    ensures { DecimalPut n out.old at result out.new }
{
    if out.len() < at {
        return at;
    }
    if !has_room(n, out.len() - at) {
        return at;
    }
    writing::put(n, out, at)
}

// Whether the digits of n fit into `room` bytes. They are counted only where the most that there can be would not fit.
fn has_room(n: u64, room: usize) -> bool
    ensures { result ≡ leb (length (decimal_of n)) room }
{
    if MOST_DIGITS <= room {
        return true;
    }
    size(n) <= room
}
