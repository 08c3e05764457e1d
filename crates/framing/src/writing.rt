// The parts of a frame in lent memory.
ghost use Rattle.std.specs.Prelude.{◌≡◌, ◌+◌, ◌%◌, ◌≤◌, List, [], ◌∷◌, length};
ghost use Rattle.memory.specs.Parts.{splice};
ghost use Rattle.characters.specs.Control.{stx, cr, lf};
ghost use Rattle.digits.specs.Check.{total, check_of, digits_of};
ghost use Rattle.digits.specs.Number.{most_number};
ghost use Rattle.frame.specs.Shape.{around_text};
ghost use Rattle.framing.specs.Writing.{end_byte, body_of, frame_of};

use characters::{CR, ETB, ETX, LF, STX};
use frame::End;

pub fn lay_frame(number: u8, end: End, text: &[u8], out: &mut [u8])
    requires { (number ≤ most_number) × (length text.now + around_text ≤ length out.old) }
    ensures { out.new ≡ splice out.old 0 (frame_of number end text.now) }
{
    let check = lay_body(number, end, text, out);
    let tail = text.len() + 3;
    lay_tail(check, tail, out);
}

// STX and the bytes that the check counts, whose check is returned.
fn lay_body(number: u8, end: End, text: &[u8], out: &mut [u8]) -> u8
    requires { (number ≤ most_number) × (length text.now + 3 ≤ length out.old) }
    ensures { (result ≡ check_of (body_of number end text.now)) × (out.new ≡ splice out.old 0 (stx ∷ body_of number end text.now)) }
{
    let digit = b'0' + number;
    out[0] = STX;
    out[1] = digit;
    let counted = lay_text(digit, text, out);
    let at = text.len() + 2;
    let last = end_byte(end);
    out[at] = last;
    std::num::wrapping_add_u8(counted, last)
}

// The text behind STX and the digit: each byte is added to the sum as it is written, so that no loop meets it again.
fn lay_text(first: u8, text: &[u8], out: &mut [u8]) -> u8
    requires { length text.now + 2 ≤ length out.old }
    ensures { (result ≡ (first + total text.now) % 256) × (out.new ≡ splice out.old 2 text.now) }
{
    let mut sum: u8 = first;
    for (i, &b) in text.iter().enumerate() {
        out[i + 2] = b;
        sum = std::num::wrapping_add_u8(sum, b);
    }
    sum
}

// The digits of the check, CR and LF, at `at`.
fn lay_tail(check: u8, at: usize, out: &mut [u8])
    requires { at + 4 ≤ length out.old }
    ensures { out.new ≡ splice out.old at ((digits_of check).high ∷ (digits_of check).low ∷ cr ∷ lf ∷ []) }
{
    let digits = digits::check_digits(check);
    out[at] = digits.high;
    out[at + 1] = digits.low;
    out[at + 2] = CR;
    out[at + 3] = LF;
}

fn end_byte(end: End) -> u8
    ensures { result ≡ end_byte end }
{
    match end {
        End::Etb => ETB,
        End::Etx => ETX,
    }
}
