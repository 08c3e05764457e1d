// The record of a serial line, and what an event makes of it by value.
#![tactic(auto)]

ghost use Rattle.std.specs.Prelude.{◌≡◌};
ghost use Rattle.line.specs.Line.{started_line, fresh_line, opened_line, closed_line, last_within, sending_within, state_within, within_limits, asked_line, gone_line, begun_line, collected_line, counted_line, waiting_line, accepted_line, refusing_line};
ghost use Rattle.line.specs.Seconds.{passed_of};
ghost use Rattle.line.specs.Turn.{turn_of};

use settings::{Dialogue, Settings};

// Where a sending is: our ENQ awaits its reply, refused so often by now; the pause behind that many refusals; a frame was sent so
// often, its text starts at this place, and it awaits its reply.
#[derive(Clone, Copy)]
pub enum Sending {
    Asking(u8),
    Pausing(u8),
    Offering(u8, u16),
}

// Between transfers, between frames, inside a frame, or sending.
#[derive(Clone, Copy)]
pub enum State {
    Neutral,
    Waiting,
    Inside,
    Out(Sending),
}

// What is kept of a line between its events; its frame bytes and unfinished text lie in lent memory.
#[derive(Clone, Copy)]
pub struct Line {
    pub state: State,
    pub collected: u16,
    pub joined: u16,
    pub seconds: u8,
    pub next: u8,
    pub last: Option<u8>,
    pub refusing: bool,
    pub settings: Settings,
}

// How a frame's number stands to the line's, and its text to the room for it.
#[derive(Clone, Copy)]
pub enum Turn {
    Refused,
    Again,
    Missed,
    Overlong,
    InTurn,
}

impl Line {
    // The largest counts and numbers that a run can leave; a record beyond one of them is refused.
    pub const MOST_COLLECTED: u16 = 245;

    pub const MOST_JOINED: u16 = 4000;

    pub const MOST_SECONDS: u8 = 29;

    pub const MOST_NUMBER: u8 = 7;

    // A frame is sent, and our ENQ refused, at most so often.
    pub const MOST_TRIES: u8 = 6;

    // A line that speaks this, with no transfer begun.
    fn started(settings: Settings) -> Line
        ensures { result ≡ started_line settings }
    {
        Line {
            state: State::Neutral,
            collected: 0,
            joined: 0,
            seconds: 0,
            next: 1, // a transfer's frames count from 1
            last: None,
            refusing: false,
            settings,
        }
    }

    pub fn fresh() -> Line
        ensures { result ≡ fresh_line }
    {
        Line::started(Settings {
            dialogue: Dialogue::Frames,
        })
    }

    // What ENQ leaves: the line waits for the first frame, whatever it held before.
    pub fn opened(self) -> Line
        ensures { result ≡ opened_line self }
    {
        Line {
            state: State::Waiting,
            ..Line::started(self.settings)
        }
    }

    // What the end of a transfer leaves, by EOT or by time.
    pub fn closed(self) -> Line
        ensures { result ≡ closed_line self }
    {
        Line::started(self.settings)
    }

    // Of a line of frames: a strip reader's record is beyond its limits here.
    #[tactic(auto, unfolding(crate::specs::Line::within_limits, crate::specs::Line::most_collected))]
    pub fn is_within_limits(self) -> bool
        ensures { result ≡ within_limits self }
    {
        self.collected <= Line::MOST_COLLECTED
            && self.joined <= Line::MOST_JOINED
            && self.seconds <= Line::MOST_SECONDS
            && self.next <= Line::MOST_NUMBER
            && is_last_within(self.last)
            && is_state_within(self.state)
            && settings::speaks_frames(self.settings)
    }

    // What the start of a sending of so many bytes leaves: our ENQ awaits its reply.
    pub fn asked(self, joined: u16) -> Line
        ensures { result ≡ asked_line self joined }
    {
        Line {
            state: State::Out(Sending::Asking(0)),
            joined,
            ..Line::started(self.settings)
        }
    }

    // A sending that goes on, with the number of its frame: the wait begins anew.
    pub fn gone(self, sending: Sending, number: u8) -> Line
        ensures { result ≡ gone_line self sending number }
    {
        Line {
            state: State::Out(sending),
            seconds: 0, // what was over is not carried on
            next: number,
            ..self
        }
    }

    // STX moves the line inside a frame, and nothing else.
    pub fn begun(self) -> Line
        ensures { result ≡ begun_line self }
    {
        Line {
            state: State::Inside,
            ..self
        }
    }

    // The line with another count of collected bytes.
    pub fn with_collected(mut self, count: u16) -> Line
        ensures { result ≡ collected_line self count }
    {
        self.collected = count;
        self
    }

    // What every judged frame leaves: the line waits, with nothing collected and no seconds counted.
    pub fn waiting(self) -> Line
        ensures { result ≡ waiting_line self }
    {
        Line {
            state: State::Waiting,
            collected: 0,
            seconds: 0, // but the number stays: a refused frame does not advance it
            ..self
        }
    }

    // What an accepted frame leaves: the next number is due, and `joined` bytes are unfinished.
    pub fn accepted(self, joined: u16) -> Line
        ensures { result ≡ accepted_line self joined }
    {
        Line {
            joined,
            next: digits::next_number(self.next),
            last: Some(self.next),
            ..self.waiting()
        }
    }

    // What a message decided against leaves: no unfinished text, and every later frame refused.
    pub fn against(self) -> Line
        ensures { result ≡ refusing_line self }
    {
        Line {
            joined: 0,
            refusing: true,
            ..self.waiting()
        }
    }

    // The line with another count of seconds.
    pub fn with_seconds(mut self, count: u8) -> Line
        ensures { result ≡ counted_line self count }
    {
        self.seconds = count;
        self
    }

    // What the line's seconds come to with these, if its time has not run out.
    #[tactic(auto, unfolding(crate::specs::Seconds::passed_of))]
    pub fn pass(self, seconds: u8) -> Option<u8>
        ensures { result ≡ passed_of self seconds }
    {
        self.seconds
            .checked_add(seconds)
            .filter(|&total| total <= Line::MOST_SECONDS)
    }

    // How a frame of this number, with this many text bytes, stands to the line.
    #[tactic(auto, unfolding(crate::specs::Turn::turn_of))]
    pub fn in_turn(self, number: u8, length: usize) -> Turn
        ensures { result ≡ turn_of self number length }
    {
        if self.refusing {
            return Turn::Refused;
        }
        if self.last == Some(number) {
            return Turn::Again;
        }
        if number != self.next {
            return Turn::Missed;
        }
        let joined = usize::from(self.joined);
        if memory::MESSAGE_LIMIT < joined || memory::MESSAGE_LIMIT - joined < length {
            return Turn::Overlong;
        }
        Turn::InTurn
    }
}

fn is_last_within(last: Option<u8>) -> bool
    ensures { result ≡ last_within last }
{
    last.is_none_or(|n| n <= Line::MOST_NUMBER)
}

fn is_state_within(state: State) -> bool
    ensures { result ≡ state_within state }
{
    match state {
        State::Neutral | State::Waiting | State::Inside => true,
        State::Out(sending) => is_sending_within(sending),
    }
}

fn is_sending_within(sending: Sending) -> bool
    ensures { result ≡ sending_within sending }
{
    match sending {
        Sending::Asking(n) | Sending::Pausing(n) => n < Line::MOST_TRIES,
        Sending::Offering(n, at) => n <= Line::MOST_TRIES && at <= Line::MOST_JOINED,
    }
}
