// What a reply comes to: one to our ENQ, one to a frame.
ghost use Rattle.std.specs.Prelude.{◌≡◌, ◌+◌};
ghost use Rattle.digits.specs.Number.{next_number};
ghost use Rattle.sending.specs.Onward.{piece_at, offer, ask_reply, frame_reply};

use super::Onward;
use answers::ACK;
use characters::{ENQ, EOT};
use line::{Line, Sending};

// The reply to our ENQ, which was refused n times before.
pub fn ask_reply(line: Line, n: u8, b: u8) -> Onward
    ensures { result ≡ ask_reply line n b }
{
    if b == ACK {
        return offer_at(line, 0, digits::FIRST_NUMBER);
    }
    if b == ENQ {
        return Onward::GivesUp;
    }
    if n < Line::MOST_TRIES - 1 {
        return Onward::Goes(Sending::Pausing(n + 1), line.next);
    }
    Onward::GivesUp
}

// The reply to the frame whose text begins at `at`, and which was sent n times.
pub fn frame_reply(limit: usize, line: Line, n: u8, at: u16, b: u8, text: &[u8]) -> Onward
    ensures { result ≡ frame_reply limit line n at b text.now }
{
    if line.joined <= at {
        return Onward::Ends;
    }
    if b == ACK {
        return next_frame(limit, line, at, text);
    }
    if b == EOT {
        return next_frame(limit, line, at, text);
    }
    if n < Line::MOST_TRIES {
        return Onward::Goes(Sending::Offering(n + 1, at), line.next);
    }
    Onward::Ends
}

// The frame behind the one whose text begins at `at`.
fn next_frame(limit: usize, line: Line, at: u16, text: &[u8]) -> Onward
    ensures { result ≡ offer line (at + piece_at limit at text.now) (next_number line.next) }
{
    let n = piece_at(limit, at as usize, text);
    let number = digits::next_number(line.next);
    offer_at(line, at as usize + n, number)
}

// The length of the piece at a place.
fn piece_at(limit: usize, at: usize, text: &[u8]) -> usize
    ensures { result ≡ piece_at limit at text.now }
{
    pieces::first_piece(limit, super::offering::rest_from(at, text))
}

// The frame whose text begins at `at`, sent for the first time; behind the text's end our EOT.
fn offer_at(line: Line, at: usize, number: u8) -> Onward
    ensures { result ≡ offer line at number }
{
    if at < line.joined as usize {
        return Onward::Goes(Sending::Offering(1, at as u16), number);
    }
    Onward::Ends
}
