// The frame that a line offers, in lent memory.
ghost use Rattle.std.specs.Prelude.{◌≡◌, ◌-◌, get_or, drop, Some};
ghost use Rattle.pieces.specs.Pieces.{end_after};
ghost use Rattle.line.specs.declared.State.TheVariants.{Out};
ghost use Rattle.sending.specs.Offered.{piece_from, piece_in, PiecePut};

use frame::End;
use framing::Refusal;
use line::Sending;

// By where the sending is: only one that awaits the reply to a frame offers it.
pub fn put_sent(
    limit: usize,
    number: u8,
    joined: u16,
    s: Sending,
    text: &[u8],
    out: &mut [u8],
) -> Result<usize, Refusal>
    ensures { PiecePut number (piece_in limit joined (Out s) text.now) out.old result out.new }
{
    match s {
        Sending::Asking(_) => Ok(0),
        Sending::Pausing(_) => Ok(0),
        Sending::Offering(_, at) => {
            if joined <= at {
                return Ok(0);
            }
            put_piece(limit, number, at as usize, text, out)
        }
    }
}

// The frame of the piece at a place.
fn put_piece(
    limit: usize,
    number: u8,
    at: usize,
    text: &[u8],
    out: &mut [u8],
) -> Result<usize, Refusal>
    ensures { PiecePut number (Some (piece_from limit at text.now)) out.old result out.new }
{
    let rest = rest_from(at, text);
    let n = pieces::first_piece(limit, rest);
    let end = end_of(rest, n);
    framing::put_frame(number, end, &rest[..n], out)
}

// The text from a place on, where it may have no byte.
pub fn rest_from(at: usize, text: &[u8]) -> &[u8]
    ensures { result.now ≡ drop at text.now }
{
    if at < text.len() {
        return &text[at..];
    }
    &text[..0]
}

// What ends the piece of the first n bytes.
fn end_of(text: &[u8], n: usize) -> End
    ensures { result ≡ end_after (get_or text.now (n - 1) 0) }
{
    if n == 0 {
        return pieces::end_after(byte_at(text, 0));
    }
    pieces::end_after(byte_at(text, n - 1))
}

// The byte at a place, 0 where there is none.
fn byte_at(text: &[u8], i: usize) -> u8
    ensures { result ≡ get_or text.now i 0 }
{
    if i < text.len() {
        return text[i];
    }
    0
}
