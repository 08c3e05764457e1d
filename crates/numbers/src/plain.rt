// A line's numbers, tested and read one by one; the line is one of the eight.
ghost use Rattle.std.specs.Prelude.{◌+◌, ◌<◌, ◌≤◌, ◌≡◌, true, length, set};
ghost use Rattle.memory.specs.Sizes.{lines, frames_size};
ghost use Rattle.line.specs.Line.{most_collected};
ghost use Rattle.line.specs.declared.State.TheVariants.{Out};
ghost use Rattle.looking.specs.Views.{frame_start};
ghost use Rattle.layout.specs.Layout.{number_at};
ghost use Rattle.numbers.specs.Inner.Quick.{receives as Quick·receives};
ghost use Rattle.numbers.specs.Plain.{one_more, quick, begins, sending_of, state_of, state_number, tries_number, place_number, sending_fits, last_of, last_number, counts_fit, block_fits, speech_fits, within_numbers, dialogue_of, settings_of, line_of, with_line};

use characters::{LF, STX};
use layout::{
    BLOCKS_OF_10, BLOCKS_OF_13, COLLECTED, FIELDS, FRAMES, JOINED, KEPT, LAST, NEXT, NUMBERS,
    PLACE, REFUSING, REPLY, SECONDS, SINCE, SPEAKS, TRIES,
};
use line::{Line, Sending, State};
use looking::Kind;
use settings::{Dialogue, Patient, Settings};

// The states of a line that is not neutral: no state has a higher number than the last.
const WAITING: u16 = 1;

pub const INSIDE: u16 = 2;

const ASKING: u16 = 3;

const PAUSING: u16 = 4;

const OFFERING: u16 = 5;

// The longest block of each kind of reader, and the largest number of a reply.
const LONGEST_OF_10: u16 = 236;

const LONGEST_OF_13: u16 = 239;

const MOST_REPLY: u16 = 2;

// A state in numbers: its own, its tries and its place.
#[derive(Clone, Copy)]
struct Stated {
    state: u16,
    tries: u16,
    place: u16,
}

// Whether a line's numbers are those of a record within its limits.
#[tactic(auto, unfolding(crate::specs::Plain::within_numbers))]
pub fn is_within(numbers: &[u16; NUMBERS], i: usize) -> bool
    requires { i < lines }
    ensures { result ≡ within_numbers numbers.now i }
{
    let at = i * FIELDS;
    numbers[at] <= OFFERING
        && sending_fits(numbers[at], numbers[at + TRIES], numbers[at + PLACE])
        && are_counts_within(numbers, i)
        && numbers[at + REFUSING] <= 1
        && is_speech_within(numbers, i)
}

// Whether the counts and the numbers of frames that every line has are within their limits, its collected bytes aside.
fn are_counts_within(numbers: &[u16; NUMBERS], i: usize) -> bool
    requires { i < lines }
    ensures { result ≡ counts_fit numbers.now i }
{
    let at = i * FIELDS;
    numbers[at + JOINED] <= Line::MOST_JOINED
        && numbers[at + SECONDS] <= Line::MOST_SECONDS as u16
        && numbers[at + NEXT] <= Line::MOST_NUMBER as u16
        && numbers[at + LAST] <= Line::MOST_NUMBER as u16 + 1
}

// Whether the line speaks what one can, with no more bytes collected than it can have.
#[tactic(auto, unfolding(crate::specs::Plain::speech_fits, line::specs::Line::most_collected))]
fn is_speech_within(numbers: &[u16; NUMBERS], i: usize) -> bool
    requires { i < lines }
    ensures { result ≡ speech_fits numbers.now i }
{
    match numbers[i * FIELDS + SPEAKS] {
        FRAMES => numbers[i * FIELDS + COLLECTED] <= Line::MOST_COLLECTED,
        BLOCKS_OF_10 => is_block_within(numbers, i, LONGEST_OF_10),
        BLOCKS_OF_13 => is_block_within(numbers, i, LONGEST_OF_13),
        _ => false,
    }
}

// Whether a reader's line has fewer bytes collected than its longest block has, and what is kept of the reader is within its limits.
fn is_block_within(numbers: &[u16; NUMBERS], i: usize, longest: u16) -> bool
    requires { i < lines }
    ensures { result ≡ block_fits numbers.now i longest }
{
    let at = i * FIELDS;
    numbers[at + COLLECTED] < longest
        && numbers[at + REPLY] <= MOST_REPLY
        && numbers[at + SINCE] <= 1
        && numbers[at + KEPT] <= 1
}

// Whether a state may have these tries and this place.
fn sending_fits(state: u16, tries: u16, place: u16) -> bool
    ensures { result ≡ sending_fits state tries place }
{
    if state <= INSIDE {
        return tries == 0 && place == 0;
    }
    if state <= PAUSING {
        return tries < Line::MOST_TRIES as u16 && place == 0;
    }
    tries <= Line::MOST_TRIES as u16 && place <= Line::MOST_JOINED
}

// Whether a byte is only collected, inside a frame that it does not end, and its line's numbers are within their limits.
pub fn is_quick(numbers: &[u16; NUMBERS], i: usize, byte: u8) -> bool
    requires { i < lines }
    ensures { result ≡ quick numbers.now i byte }
{
    let at = i * FIELDS;
    if numbers[at] != INSIDE {
        return false;
    }
    if byte == LF {
        return false;
    }
    if !receives(
        numbers[at + TRIES],
        numbers[at + PLACE],
        numbers[at + SPEAKS],
        numbers[at + REFUSING],
    ) {
        return false;
    }
    if Line::MOST_COLLECTED <= numbers[at + COLLECTED] {
        return false;
    }
    are_counts_within(numbers, i)
}

// No tries and no place, the line speaks frames and does not refuse: one test in the place of four, as most bytes take it. What comes on a
// line that refuses goes the longer way.
fn receives(tries: u16, place: u16, speaks: u16, refusing: u16) -> bool
    ensures { result ≡ Quick·receives tries place speaks refusing }
{
    tries | place | speaks | refusing == FRAMES
}

// The byte behind those collected, and one more collected.
pub fn put_byte(i: usize, byte: u8, numbers: &mut [u16; NUMBERS], frames: &mut [u8])
    requires { (i < lines) × (number_at numbers.old i 1 ≤ most_collected (line_of numbers.old i)) × (length frames.old ≡ frames_size) }
    ensures { (numbers.new ≡ one_more numbers.old i) × (frames.new ≡ set frames.old (frame_start i + number_at numbers.old i 1) byte) }
{
    let at = i * FIELDS + COLLECTED;
    let collected = numbers[at];
    let place = i * memory::FRAME_PART + collected as usize;
    frames[place] = byte;
    numbers[at] = collected + 1;
}

// Whether an event is STX between frames: it only begins one.
pub fn is_begin(numbers: &[u16; NUMBERS], i: usize, kind: Kind) -> bool
    requires { i < lines }
    ensures { result ≡ begins numbers.now i kind }
{
    let at = i * FIELDS;
    match kind {
        Kind::Byte(b) => {
            if b != STX {
                return false;
            }
            numbers[at] == WAITING
        }
        Kind::Seconds(_) => false,
    }
}

// The record that a line's numbers stand for.
pub fn line_of(numbers: &[u16; NUMBERS], i: usize) -> Line
    requires { (i < lines) × (within_numbers numbers.now i ≡ true) }
    ensures { result ≡ line_of numbers.now i }
{
    let at = i * FIELDS;
    Line {
        state: state_of(numbers[at], numbers[at + TRIES], numbers[at + PLACE]),
        collected: numbers[at + COLLECTED],
        joined: numbers[at + JOINED],
        seconds: numbers[at + SECONDS] as u8,
        next: numbers[at + NEXT] as u8,
        last: last_of(numbers[at + LAST]),
        refusing: numbers[at + REFUSING] == 1,
        settings: settings_of(numbers[at + SPEAKS]),
    }
}

// 0 frames, else a strip reader's blocks.
fn settings_of(speaks: u16) -> Settings
    ensures { result ≡ settings_of speaks }
{
    Settings {
        dialogue: dialogue_of(speaks),
    }
}

fn dialogue_of(speaks: u16) -> Dialogue
    ensures { result ≡ dialogue_of speaks }
{
    match speaks {
        FRAMES => Dialogue::Frames,
        BLOCKS_OF_10 => Dialogue::Blocks(Patient::Ten),
        _ => Dialogue::Blocks(Patient::Thirteen),
    }
}

// 0 neutral, 1 waiting, 2 inside, else a sending.
fn state_of(n: u16, tries: u16, place: u16) -> State
    requires { tries ≤ 255 }
    ensures { result ≡ state_of n tries place }
{
    match n {
        0 => State::Neutral,
        WAITING => State::Waiting,
        INSIDE => State::Inside,
        _ => State::Out(sending_of(n, tries as u8, place)),
    }
}

// 3 asking, 4 pausing, 5 offering.
fn sending_of(n: u16, tries: u8, place: u16) -> Sending
    ensures { result ≡ sending_of n tries place }
{
    match n {
        ASKING => Sending::Asking(tries),
        PAUSING => Sending::Pausing(tries),
        _ => Sending::Offering(tries, place),
    }
}

// 0 for none, else one more than the number.
fn last_of(n: u16) -> Option<u8>
    requires { n ≤ 256 }
    ensures { result ≡ last_of n }
{
    if n == 0 {
        return None;
    }
    Some((n - 1) as u8)
}

// Puts a record in the place of a line's numbers; its serial and the spare ones stay.
pub fn put_line(numbers: &mut [u16; NUMBERS], i: usize, line: Line)
    requires { i < lines }
    ensures { numbers.new ≡ with_line numbers.old i line }
{
    let at = i * FIELDS;
    let stated = state_numbers(line.state);
    numbers[at] = stated.state;
    numbers[at + COLLECTED] = line.collected;
    numbers[at + JOINED] = line.joined;
    numbers[at + SECONDS] = line.seconds as u16;
    numbers[at + NEXT] = line.next as u16;
    numbers[at + LAST] = last_number(line.last);
    numbers[at + REFUSING] = u16::from(line.refusing);
    numbers[at + TRIES] = stated.tries;
    numbers[at + PLACE] = stated.place;
}

fn state_numbers(state: State) -> Stated
    ensures { result ≡ record { state = state_number state; tries = tries_number state; place = place_number state } }
{
    match state {
        State::Neutral => in_numbers(0, 0, 0),
        State::Waiting => in_numbers(WAITING, 0, 0),
        State::Inside => in_numbers(INSIDE, 0, 0),
        State::Out(sending) => sending_numbers(sending),
    }
}

fn sending_numbers(sending: Sending) -> Stated
    ensures { result ≡ record { state = state_number (Out sending); tries = tries_number (Out sending); place = place_number (Out sending) } }
{
    match sending {
        Sending::Asking(n) => in_numbers(ASKING, n, 0),
        Sending::Pausing(n) => in_numbers(PAUSING, n, 0),
        Sending::Offering(n, at) => in_numbers(OFFERING, n, at),
    }
}

fn in_numbers(state: u16, tries: u8, place: u16) -> Stated
    ensures { result ≡ record { state = state; tries = tries; place = place } }
{
    Stated {
        state,
        tries: u16::from(tries),
        place,
    }
}

fn last_number(last: Option<u8>) -> u16
    ensures { result ≡ last_number last }
{
    last.map_or(0, |n| u16::from(n) + 1)
}
