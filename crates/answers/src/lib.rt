// The answers, their numbers, and the byte that goes out with each.
#![tactic(auto)]

ghost use Rattle.std.specs.Prelude.{◌≡◌};
ghost use Rattle.answers.specs.Paper.{fault_number, number_of, place_of, reply_of, parcel_byte, first_out};
ghost use Rattle.answers.specs.declared.Answer.TheVariants.{Nothing};
ghost use Rattle.answers.specs.InNumbers.{in_numbers as InNumbers·in_numbers, done as InNumbers·done, refused_with};

use characters::{ENQ, EOT, STX};

pub const ACK: u8 = 0x06;

pub const NAK: u8 = 0x15;

// What can be wrong with the records of a text, each with the number of its answer.
#[derive(Clone, Copy)]
pub enum Fault {
    NoHeader = 50,
    UnknownType = 51,
    Misplaced = 52,
    Misnumbered = 53,
    NoFinalCr = 54,
    BadDelimiters = 55,
}

impl Fault {
    // The number of the answer that tells it.
    pub fn number(self) -> u8
        ensures { result ≡ fault_number self }
    {
        self as u8
    }
}

// What is to be sent in a sending: nothing, our ENQ, our EOT, or the frame that the line offers.
#[derive(Clone, Copy)]
pub enum Parcel {
    Empty,
    Enquiry,
    Ending,
    Frame,
}

// The answers in the order of their numbers, which are those of their rules: 22 is [A22]. A fault comes with its record's place:
// `Faulty` of a text that a line has received, `Unsendable` of one that is to be sent. The last seven are those of a strip reader's
// line, where 4 and 31 have other replies than on a line of frames: `Filed` and `Crowded`; 11 is `Heard` with a reply, `Noted` without.
#[derive(Clone, Copy)]
pub enum Answer {
    Nothing,
    Opened,
    Accepted,
    Repeated,
    Stored,
    Ended,
    Dropped,
    TimedOut,
    Taken(usize, u16),
    Sends(Parcel),
    Busy,
    Unended,
    Torn,
    WrongCheck,
    BadText,
    BadNumber,
    Refusing,
    OutOfTurn,
    TooLong,
    NoCr,
    NoMessage,
    NoRoom,
    NoLine,
    WrongSize,
    BeyondLimits,
    Broken,
    NothingWaiting,
    BufferShort,
    Malformed,
    NotFitting,
    Faulty(Fault, u16),
    Unsendable(Fault, u16),
    NotNeutral,
    GivenUp,
    Filed,
    Heard,
    Noted,
    Crowded,
    OddLength,
    OddTest,
    OddByte,
}

impl Answer {
    // The answer's number.
    pub fn number(self) -> u8
        ensures { result ≡ number_of self }
    {
        match self {
            Answer::Nothing => 0,
            Answer::Opened => 1,
            Answer::Accepted => 2,
            Answer::Repeated => 3,
            Answer::Stored => 4,
            Answer::Ended => 5,
            Answer::Dropped => 6,
            Answer::TimedOut => 7,
            Answer::Taken(_, _) => 8,
            Answer::Sends(_) => 9,
            Answer::Busy => 20,
            Answer::Unended => 21,
            Answer::Torn => 22,
            Answer::WrongCheck => 23,
            Answer::BadText => 24,
            Answer::BadNumber => 25,
            Answer::Refusing => 26,
            Answer::OutOfTurn => 27,
            Answer::TooLong => 28,
            Answer::NoCr => 29,
            Answer::NoMessage => 30,
            Answer::NoRoom => 31,
            Answer::NoLine => 40,
            Answer::WrongSize => 41,
            Answer::BeyondLimits => 42,
            Answer::Broken => 43,
            Answer::NothingWaiting => 44,
            Answer::BufferShort => 45,
            Answer::Malformed => 46,
            Answer::NotFitting => 47,
            Answer::Faulty(fault, _) | Answer::Unsendable(fault, _) => fault.number(),
            Answer::NotNeutral => 60,
            Answer::GivenUp => 61,
            Answer::Filed => 4,
            Answer::Heard | Answer::Noted => 11,
            Answer::Crowded => 31,
            Answer::OddLength => 70,
            Answer::OddTest => 71,
            Answer::OddByte => 72,
        }
    }

    // The place of the record that it finds wrong, counted from 1; 0 with every other answer.
    pub fn place(self) -> u16
        ensures { result ≡ place_of self }
    {
        match self {
            Answer::Faulty(_, place) | Answer::Unsendable(_, place) => place,
            _ => 0,
        }
    }

    // The first byte that goes out with it, if any: of a sending's answer that of its parcel, and nothing with a text that is not sent; our
    // replies to a strip reader are blocks, which begin with STX.
    pub fn reply(self) -> Option<u8>
        ensures { result ≡ first_out self }
    {
        match self {
            Answer::Sends(parcel) => first_byte(parcel),
            Answer::Unsendable(_, _) | Answer::Crowded => None,
            Answer::Filed | Answer::Heard => Some(STX),
            Answer::OddLength | Answer::OddTest | Answer::OddByte => Some(STX),
            _ => reply_to(self.number()),
        }
    }
}

// The first byte of a parcel: a frame begins with STX.
fn first_byte(parcel: Parcel) -> Option<u8>
    ensures { result ≡ parcel_byte parcel }
{
    match parcel {
        Parcel::Empty => None,
        Parcel::Enquiry => Some(ENQ),
        Parcel::Ending => Some(EOT),
        Parcel::Frame => Some(STX),
    }
}

// The byte that the table sends back with a number.
#[tactic(auto, unfolding(crate::specs::Paper::reply_of))]
pub fn reply_to(number: u8) -> Option<u8>
    ensures { result ≡ reply_of number }
{
    match number {
        1..=4 => Some(ACK),
        20..=31 | 50..=55 => Some(NAK),
        _ => None,
    }
}

// An answer: its number, the first byte to send (0 for none), for 8 the serial and the text's length, for a fault its record's place.
// The case of check digits is 0 in this version. With it no byte is left unnamed, so that an answer is made in registers: bytes
// without a name are left out of stores, and a load over such a store waits for it.
#[repr(C)]
#[derive(Clone, Copy)]
pub struct Answered {
    pub number: u8,
    pub reply: u8,
    pub serial: u16,
    pub place: u16,
    pub digits: u16,
    pub length: usize,
}

// The answer to an event or a start.
#[tactic(auto, unfolding(crate::specs::InNumbers::in_numbers))]
pub fn in_numbers(answer: Answer) -> Answered
    ensures { result ≡ InNumbers·in_numbers answer }
{
    Answered {
        number: answer.number(),
        reply: answer.reply().unwrap_or(0),
        serial: 0,
        place: answer.place(),
        digits: 0,
        length: 0,
    }
}

// The answer to an event that is ignored or only collected, or begins a frame: most events are, and need no look at the answers.
#[tactic(auto, unfolding(crate::specs::InNumbers::in_numbers, crate::specs::Paper::reply_of))]
pub fn nothing() -> Answered
    ensures { result ≡ InNumbers·in_numbers Nothing }
{
    Answered {
        number: 0,
        reply: 0,
        serial: 0,
        place: 0,
        digits: 0,
        length: 0,
    }
}

// What became of a text: 0 and how much was written (bytes, or records that were read); or the number of a refusal, the place of the
// record that is wrong, and 0. The other fields are 0 in this version: as in an answer, no byte is left unnamed.
#[repr(C)]
#[derive(Clone, Copy)]
pub struct Made {
    pub number: u8,
    pub spare: u8,
    pub place: u16,
    pub value: u32,
    pub length: usize,
}

// So much was written.
pub fn done(n: usize) -> Made
    ensures { result ≡ InNumbers·done n }
{
    Made {
        number: 0,
        spare: 0,
        place: 0,
        value: 0,
        length: n,
    }
}

// Nothing was written, with this answer.
pub fn refused_with(answer: Answer) -> Made
    ensures { result ≡ refused_with answer }
{
    Made {
        number: answer.number(),
        spare: 0,
        place: answer.place(),
        value: 0,
        length: 0,
    }
}
