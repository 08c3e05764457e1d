// E1381's sending side, on one line's record: what a byte or seconds make of a sending, and the frame that it offers.
#![tactic(auto)]

ghost use Rattle.std.specs.Prelude.{◌≡◌};
ghost use Rattle.sending.specs.Onward.{byte_onward, wait_of, late_onward, seconds_onward};
ghost use Rattle.sending.specs.Offered.{piece_now, PiecePut};

use framing::Refusal;
use line::{Line, Sending, State};

mod offering; // offering.rt: the frame that is offered, in lent memory
mod replies; // replies.rt: what a reply to our ENQ or to a frame comes to

// So many seconds a reply is waited for, and so many are between a refusal of our ENQ and the next.
const REPLY_SECONDS: u8 = 15;

const PAUSE_SECONDS: u8 = 10;

// What an event makes of a sending: nothing; so many seconds waited by now; it goes on, with the number of its frame; our EOT ends it;
// it is dropped, and nothing is sent.
#[derive(Clone, Copy)]
pub enum Onward {
    Stays,
    Waits(u8),
    Goes(Sending, u8),
    Ends,
    GivesUp,
}

// A byte that comes while the line sends this text.
pub fn on_byte(limit: usize, line: Line, s: Sending, b: u8, text: &[u8]) -> Onward
    ensures { result ≡ byte_onward limit line s b text.now }
{
    match s {
        Sending::Asking(n) => replies::ask_reply(line, n, b),
        Sending::Pausing(_) => Onward::Stays,
        Sending::Offering(n, at) => replies::frame_reply(limit, line, n, at, b, text),
    }
}

// Seconds that pass while the line sends, added up in a wider number than the record's.
pub fn on_seconds(line: Line, s: Sending, seconds: u8) -> Onward
    ensures { result ≡ seconds_onward line s seconds }
{
    let total = line.seconds as u16 + seconds as u16;
    let wait = wait_of(s);
    if total < wait as u16 {
        return Onward::Waits(total as u8);
    }
    late(line, s)
}

fn wait_of(s: Sending) -> u8
    ensures { result ≡ wait_of s }
{
    match s {
        Sending::Asking(_) => REPLY_SECONDS,
        Sending::Pausing(_) => PAUSE_SECONDS,
        Sending::Offering(_, _) => REPLY_SECONDS,
    }
}

// A wait that is over: behind a pause our ENQ goes out again.
fn late(line: Line, s: Sending) -> Onward
    ensures { result ≡ late_onward line s }
{
    match s {
        Sending::Asking(_) => Onward::Ends,
        Sending::Pausing(n) => Onward::Goes(Sending::Asking(n), line.next),
        Sending::Offering(_, _) => Onward::Ends,
    }
}

// Writes the frame that the line offers over the start of out. Where it offers none the length is 0, and nothing is written.
pub fn put_offered(limit: usize, line: Line, text: &[u8], out: &mut [u8]) -> Result<usize, Refusal>
    ensures { PiecePut line.next (piece_now limit line text.now) out.old result out.new }
{
    let state = line.state;
    match state {
        State::Neutral => Ok(0),
        State::Waiting => Ok(0),
        State::Inside => Ok(0),
        State::Out(s) => offering::put_sent(limit, line.next, line.joined, s, text, out),
    }
}
