// The digits of a number in lent memory that has room for them.
ghost use Rattle.std.specs.Prelude.{◌≡◌, ◌+◌, ◌≤◌, ◌<◌, length};
ghost use Rattle.memory.specs.Parts.{splice};
ghost use Rattle.decimal.specs.Decimal.{decimal_of, digit_for};
ghost use Rattle.decimal.specs.Inner.Groups.{two_digits, four_digits};

// Writes the digits of n, and says where they end. Up to eight are written from the front, with nothing measured: a trace has that many events.
pub fn put(n: u64, out: &mut [u8], at: usize) -> usize
    requires { at + length (decimal_of n) ≤ length out.old }
    ensures { (result ≡ at + length (decimal_of n)) × (out.new ≡ splice out.old at (decimal_of n)) }
{
    if n < 10000 {
        return put_short(n, out, at);
    }
    if n < 100000000 {
        let middle = put_short(n / 10000, out, at);
        put_four(n % 10000, out, middle);
        return middle + 4;
    }
    put_long(n, out, at)
}

// One to four digits.
fn put_short(n: u64, out: &mut [u8], at: usize) -> usize
    requires { (n < 10000) × (at + length (decimal_of n) ≤ length out.old) }
    ensures { (result ≡ at + length (decimal_of n)) × (out.new ≡ splice out.old at (decimal_of n)) }
{
    if n < 10 {
        out[at] = digit(n);
        return at + 1;
    }
    if n < 100 {
        put_two(n, out, at);
        return at + 2;
    }
    if n < 1000 {
        out[at] = digit(n / 100);
        put_two(n % 100, out, at + 1);
        return at + 3;
    }
    put_four(n, out, at);
    at + 4
}

// Any number of digits, two a turn, the last ones first.
fn put_long(n: u64, out: &mut [u8], at: usize) -> usize
    requires { at + length (decimal_of n) ≤ length out.old }
    ensures { (result ≡ at + length (decimal_of n)) × (out.new ≡ splice out.old at (decimal_of n)) }
{
    let end = at + super::size(n);
    let mut rest = n;
    let mut from = end;
    // A turn divides what is left by 100: no range counts that.
    while 100 <= rest {
        from -= 2;
        put_two(rest % 100, out, from);
        rest = rest / 100;
    }
    put_short(rest, out, at);
    end
}

fn put_four(n: u64, out: &mut [u8], at: usize)
    requires { (n < 10000) × (at + 4 ≤ length out.old) }
    ensures { out.new ≡ splice out.old at (four_digits n) }
{
    put_two(n / 100, out, at);
    put_two(n % 100, out, at + 2);
}

fn put_two(n: u64, out: &mut [u8], at: usize)
    requires { (n < 100) × (at + 2 ≤ length out.old) }
    ensures { out.new ≡ splice out.old at (two_digits n) }
{
    out[at] = digit(n / 10);
    out[at + 1] = digit(n % 10);
}

fn digit(n: u64) -> u8
    requires { n < 10 }
    ensures { result ≡ digit_for n }
{
    b'0' + n as u8
}
