// The digits of a frame: the sum that checks it, that sum in two digits, and the numbers of frames.
#![tactic(auto)]

ghost use Rattle.std.specs.Prelude.{◌≡◌};
ghost use Rattle.digits.specs.Check.{check_of, digits_of};
ghost use Rattle.digits.specs.Number.{next_number};

// The number of the first frame, and the largest.
pub const FIRST_NUMBER: u8 = 1;

pub const MOST_NUMBER: u8 = 7;

// The digits of the numbers below 16, each at its number.
const HEX_DIGITS: [u8; 16] = *b"0123456789ABCDEF";

// The two digits of a check.
#[derive(Clone, Copy)]
pub struct Digits {
    pub high: u8,
    pub low: u8,
}

// The check: the sum, modulo 256, of the bytes that it counts.
#[tactic(auto, unfolding(crate::specs::Check::total, crate::specs::Check::check_of), using(crate::proofs::Check::total_more))]
pub fn check_sum(counted: &[u8]) -> u8
    ensures { result ≡ check_of counted.now }
{
    let mut sum: u8 = 0;
    for b in counted {
        sum = sum.wrapping_add(*b);
    }
    sum
}

// The two digits of a check. The list is taken once, as a constant is laid out anew wherever it is named.
pub fn check_digits(check: u8) -> Digits
    ensures { result ≡ digits_of check }
{
    let digits = HEX_DIGITS;
    let n = check as usize;
    Digits {
        high: digits[n / 16],
        low: digits[n % 16],
    }
}

// The number after n: 1, 2, .. 7, 0, 1.
#[tactic(auto, unfolding(crate::specs::Number::next_number))]
pub fn next_number(n: u8) -> u8
    ensures { result ≡ next_number n }
{
    (n % 8 + 1) % 8
}
