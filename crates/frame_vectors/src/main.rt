// Shows what frames get: reads lines `NAME LIMIT HEX`, HEX a frame's bytes behind STX, and writes for each its right check digits and its verdict.
// A frame that is whole is written again and compared.
#![tactic(auto)]

ghost use Rattle.std.specs.Prelude.{◌<◌};

use frame::{End, Flaw};
use framing::Refusal;
use std::io;

// The most bytes of a case: more than the longest limit.
const MOST: usize = 600;

// The most bytes of the standard input that are read.
const INPUT: u64 = 65536;

fn main(rt: HostRuntime) -> io::Result<()> {
    let input = vectors::first_bytes(rt.alloc(), rt.stdin(), INPUT)?;
    for line in input.split(|b| *b == b'\n') {
        show_line(&rt, line)?;
    }
    Ok(())
}

// A line with a space is shown: its name, and where it has its other parts what the frame gets.
fn show_line(rt: &(impl Print + AllocGlobal), line: &[u8]) -> io::Result<()> {
    let mut parts = line.splitn(3, |b| *b == b' ');
    let (Some(name), Some(limit)) = (parts.next(), parts.next()) else {
        return Ok(());
    };
    rt.write_all(name)?;
    let Some(hex) = parts.next() else {
        return Ok(());
    };
    let mut bytes = vectors::from_hex(rt.alloc(), hex)?;
    bytes.truncate(MOST);
    show_frame(rt, limit_of(limit), &bytes)?;
    println!(rt)
}

// The last three digits of a number. Any byte is a digit here, so `parse`, which refuses some, does not serve.
fn limit_of(digits: &[u8]) -> usize
    ensures { result < 1000 }
{
    digits
        .iter()
        .fold(0, |n, b| n % 100 * 10 + usize::from(vectors::digit(*b)))
        % 1000
}

fn show_frame(rt: &impl Print, limit: usize, bytes: &[u8]) -> io::Result<()> {
    let Some((last, collected)) = bytes.split_last() else {
        return Ok(());
    };
    show_digits(rt, collected)?;
    match frame::shape_of(limit, collected, *last) {
        Err(Flaw::Unended) => print!(rt; " 21"),
        Err(Flaw::Torn) => print!(rt; " 22"),
        Err(Flaw::WrongCheck) => print!(rt; " 23"),
        Err(Flaw::BadText) => print!(rt; " 24"),
        Err(Flaw::BadNumber) => print!(rt; " 25"),
        Ok((number, end, length)) => {
            print!(rt; " whole {number} {} {length}", name_of(end))?;
            show_again(rt, number, end, bytes)
        }
    }
}

// The digits that a frame of these bytes has to have, where it is long enough to have some.
fn show_digits(rt: &impl Print, collected: &[u8]) -> io::Result<()> {
    if collected.len() < 5 {
        return print!(rt; " --");
    }
    let counted = &collected[..collected.len() - 3];
    let digits = digits::check_digits(digits::check_sum(counted));
    rt.write_all(&[b' ', digits.high, digits.low])
}

fn name_of(end: End) -> &'static str {
    match end {
        End::Etb => "ETB",
        End::Etx => "ETX",
    }
}

// The frame written again, of its number, its end and its text, beside STX and the bytes that came.
fn show_again(rt: &impl Print, number: u8, end: End, bytes: &[u8]) -> io::Result<()> {
    if bytes.len() < 6 {
        return Ok(());
    }
    let text = &bytes[1..bytes.len() - 5];
    // Memory to lend, as hosts lend it: the library has no heap.
    let mut out = [0u8; MOST];
    match framing::put_frame(number, end, text, &mut out) {
        Err(Refusal::Malformed) => print!(rt; " 46"),
        Err(Refusal::NotFitting) => print!(rt; " 47"),
        Ok(n) => {
            let behind_stx = out
                .get(..n)
                .and_then(|frame| frame.strip_prefix(&[characters::STX]));
            let compared = if behind_stx == Some(bytes) {
                "same"
            } else {
                "other"
            };
            print!(rt; " {compared}")
        }
    }
}
