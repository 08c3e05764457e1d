// A byte or seconds, by the line's state.
ghost use Rattle.std.specs.Prelude.{◌≡◌, true, ◌<◌, length};
ghost use Rattle.looking.specs.Views.{frames_of, texts_of};
ghost use Rattle.looking.specs.Inner.Ready.{Ready};
ghost use Rattle.sending.specs.Onward.{byte_onward};
ghost use Rattle.memory.specs.Sizes.{lines, frame_limit, unfinished_size};
ghost use Rattle.line.specs.Line.{within_limits};
ghost use Rattle.looking.specs.Views.{unfinished_text};
ghost use Rattle.looking.specs.Verdicts.{parcel_of};
ghost use Rattle.looking.specs.Looks.{neutral_look, waiting_look, inside_look, passed_look, onward_look, byte_look, seconds_look, look_of};

use super::{Act, Kind, Look, done, judging};
use answers::{Answer, Parcel};
use characters::{ENQ, EOT, LF, STX};
use line::{Line, Sending, State};
use sending::Onward;

pub fn look(line: Line, i: usize, kind: Kind, unfinished: &[u8], frames: &[u8]) -> Look
    requires { Ready line i unfinished.now frames.now }
    ensures { result ≡ look_of line kind (texts_of i unfinished.now) (frames_of i frames.now) }
{
    match kind {
        Kind::Byte(b) => look_byte(line, i, b, unfinished, frames),
        Kind::Seconds(s) => look_seconds(line, s),
    }
}

#[tactic(auto, unfolding(crate::specs::Looks::byte_look))]
fn look_byte(line: Line, i: usize, b: u8, unfinished: &[u8], frames: &[u8]) -> Look
    requires { Ready line i unfinished.now frames.now }
    ensures { result ≡ byte_look line b (texts_of i unfinished.now) (frames_of i frames.now) }
{
    match line.state {
        State::Neutral => look_neutral(b),
        State::Waiting => look_waiting(line, b),
        State::Inside => look_inside(line, i, b, unfinished, frames),
        State::Out(sending) => look_reply(line, i, sending, b, unfinished),
    }
}

#[tactic(auto, unfolding(crate::specs::Looks::neutral_look))]
fn look_neutral(b: u8) -> Look
    ensures { result ≡ neutral_look b }
{
    match b {
        ENQ => done(Act::Open, Answer::Opened),
        _ => done(Act::Leave, Answer::Nothing),
    }
}

#[tactic(auto, unfolding(crate::specs::Looks::waiting_look))]
fn look_waiting(line: Line, b: u8) -> Look
    ensures { result ≡ waiting_look line b }
{
    match b {
        STX => done(Act::Begin, Answer::Nothing),
        EOT if line.joined == 0 => done(Act::Close, Answer::Ended),
        EOT => done(Act::Close, Answer::Dropped),
        ENQ => done(Act::Leave, Answer::Busy),
        _ => done(Act::Leave, Answer::Nothing),
    }
}

#[tactic(auto, unfolding(crate::specs::Looks::inside_look, line::specs::Line::most_collected))]
fn look_inside(line: Line, i: usize, b: u8, unfinished: &[u8], frames: &[u8]) -> Look
    requires { Ready line i unfinished.now frames.now }
    ensures { result ≡ inside_look line b (texts_of i unfinished.now) (frames_of i frames.now) }
{
    if b != LF && line.collected != Line::MOST_COLLECTED {
        return done(Act::Collect, Answer::Nothing);
    }
    judging::look_frame(line, i, b, unfinished, frames)
}

#[tactic(auto, unfolding(crate::specs::Looks::seconds_look))]
fn look_seconds(line: Line, s: u8) -> Look
    ensures { result ≡ seconds_look line s }
{
    match line.state {
        State::Neutral => done(Act::Leave, Answer::Nothing),
        State::Waiting | State::Inside => look_passed(line.pass(s)),
        State::Out(sending) => look_onward(sending::on_seconds(line, sending, s)),
    }
}

fn look_passed(passed: Option<u8>) -> Look
    ensures { result ≡ passed_look passed }
{
    match passed {
        Some(n) => done(Act::Count(n), Answer::Nothing),
        None => done(Act::Close, Answer::TimedOut),
    }
}

// A byte while the line sends: the text that is sent lies where an unfinished one does.
fn look_reply(line: Line, i: usize, sending: Sending, b: u8, unfinished: &[u8]) -> Look
    requires { (i < lines) × (within_limits line ≡ true) × (length unfinished.now ≡ unfinished_size) }
    ensures { result ≡ onward_look (byte_onward frame_limit line sending b (unfinished_text line (texts_of i unfinished.now))) }
{
    let start = i * memory::MESSAGE_LIMIT;
    let end = start + line.joined as usize;
    look_onward(sending::on_byte(
        memory::FRAME_LIMIT,
        line,
        sending,
        b,
        &unfinished[start..end],
    ))
}

fn look_onward(onward: Onward) -> Look
    ensures { result ≡ onward_look onward }
{
    match onward {
        Onward::Stays => done(Act::Leave, Answer::Nothing),
        Onward::Waits(n) => done(Act::Await(n), Answer::Sends(Parcel::Empty)),
        Onward::Goes(sending, n) => done(Act::Go(sending, n), Answer::Sends(parcel_of(sending))),
        Onward::Ends => done(Act::Close, Answer::Sends(Parcel::Ending)),
        Onward::GivesUp => done(Act::Close, Answer::GivenUp),
    }
}

// What is to be sent when a sending has come so far.
fn parcel_of(sending: Sending) -> Parcel
    ensures { result ≡ parcel_of sending }
{
    match sending {
        Sending::Asking(_) => Parcel::Enquiry,
        Sending::Pausing(_) => Parcel::Empty,
        Sending::Offering(_, _) => Parcel::Frame,
    }
}
