// A line's record in plain numbers, as a host keeps it (`layout` says where each stands).
#![tactic(auto)]

ghost use Rattle.std.specs.Prelude.{◌≡◌};
ghost use Rattle.numbers.specs.Changes.{is_within, is_reader, record_of, Collected, Begun, record_after};

use layout::{FIELDS, FRAMES, NUMBERS, SPEAKS};
use line::Line;
use looking::Kind;

mod plain; // plain.rt: the tests of a line's numbers, and each number read and put

// Collects a byte, and says whether it did: not where there is more to do, or no such line, or frames of another size.
pub fn collect(i: usize, byte: u8, numbers: &mut [u16; NUMBERS], frames: &mut [u8]) -> bool
    ensures { Collected numbers.old i byte frames.old result numbers.new frames.new }
{
    if memory::LINES <= i {
        return false;
    }
    if frames.len() != memory::FRAMES_SIZE {
        return false;
    }
    if !plain::is_quick(numbers, i, byte) {
        return false;
    }
    plain::put_byte(i, byte, numbers, frames);
    true
}

// Begins a frame at STX between frames, and says whether it did.
pub fn begin(i: usize, kind: Kind, numbers: &mut [u16; NUMBERS]) -> bool
    ensures { Begun numbers.old i kind result numbers.new }
{
    if memory::LINES <= i {
        return false;
    }
    if !plain::is_begin(numbers, i, kind) {
        return false;
    }
    numbers[i * FIELDS] = plain::INSIDE;
    true
}

// Whether a line's numbers stand for a record within its limits.
#[tactic(auto, using(crate::proofs::Changes::within_nowhere, crate::proofs::Changes::within_there))]
pub fn is_within(numbers: &[u16; NUMBERS], i: usize) -> bool
    ensures { result ≡ is_within numbers.now i }
{
    i < memory::LINES && plain::is_within(numbers, i)
}

// Whether a line is a strip reader's.
#[tactic(auto, unfolding(crate::specs::Changes::is_reader))]
pub fn is_reader(numbers: &[u16; NUMBERS], i: usize) -> bool
    ensures { result ≡ is_reader numbers.now i }
{
    i < memory::LINES && numbers[i * FIELDS + SPEAKS] != FRAMES
}

// The record that a line's numbers stand for; where they stand for none, that of a fresh line.
pub fn record_of(numbers: &[u16; NUMBERS], i: usize) -> Line
    ensures { result ≡ record_of numbers.now i }
{
    if !is_within(numbers, i) {
        return Line::fresh();
    }
    plain::line_of(numbers, i)
}

// Puts a record in the place of a line's numbers; its serial and the spare ones stay.
pub fn put_record(numbers: &mut [u16; NUMBERS], i: usize, line: Line)
    ensures { numbers.new ≡ record_after numbers.old i line }
{
    if i < memory::LINES {
        plain::put_line(numbers, i, line);
    }
}
