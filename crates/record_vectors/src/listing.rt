// The lines of a case.
ghost use Rattle.std.specs.Prelude.{◌≤◌, length};

use component::ResultField;
use faults::{Flaw, Refusal};
use kinds::Delimiters;
use records::Ending;
use std::io;

// The most records of a message that are listed.
const MOST: usize = 1024;

// A text: what the check finds, whether it ends with an L record, and its records.
pub fn message(rt: &impl Print, text: &[u8]) -> io::Result<()> {
    print!(rt; " {}", text.len())?;
    match faults::check(text) {
        Ok(()) => print!(rt; " none"),
        Err(Flaw::NotText) => print!(rt; " 46"),
        Err(Flaw::Faulty(fault, place)) => print!(rt; " {} at {place}", fault.number()),
    }?;
    if message::is_message(text) {
        print!(rt; " message")?;
    }
    ending(rt, text)?;
    records(rt, text)
}

// Whether the text ends with an L record, and for a short one at how many places it can be cut in two so that the pieces, joined, do.
fn ending(rt: &impl Print, text: &[u8]) -> io::Result<()> {
    if ends_with_l(text, text.len()) {
        print!(rt; " L")?;
    }
    if text.len() < 100 {
        let cuts = (0..text.len())
            .filter(|cut| ends_with_l(text, *cut))
            .count();
        print!(rt; " {cuts}")?;
    }
    Ok(())
}

// Whether the text, cut in two and joined, ends with an L record.
fn ends_with_l(text: &[u8], cut: usize) -> bool
    requires { cut ≤ length text.now }
{
    let (before, joined) = text.split_at(cut);
    matches!(records::ending_of(before, joined), Ending::WithL)
}

// What reading a text answers, and each record of a message: its number, type, offset, length and owner.
fn records(rt: &impl Print, text: &[u8]) -> io::Result<()> {
    // Four memories to lend, as `owner::read` and hosts have them.
    let mut types = [0u8; MOST];
    let mut offsets = [0u16; MOST];
    let mut lengths = [0u16; MOST];
    let mut owners = [0u16; MOST];
    let reading = owner::read(text, &mut types, &mut offsets, &mut lengths, &mut owners);
    answer(rt, reading)?;
    let Ok(n) = reading else {
        return Ok(());
    };
    let rows = (1..=n).zip(&types).zip(&offsets).zip(&lengths).zip(&owners);
    for ((((number, kind), offset), length), owner) in rows {
        println!(rt;
            "  {number} {} {offset} {length} {owner}",
            char::from(*kind)
        )?;
        if *kind == b'R' {
            result(rt, text, *offset, *length)?;
        }
    }
    Ok(())
}

// Ends the line with what a reading answers.
fn answer(rt: &impl Print, reading: Result<usize, Refusal>) -> io::Result<()> {
    match reading {
        Ok(n) => println!(rt; " {n}"),
        Err(Refusal::Malformed) => println!(rt; " 46"),
        Err(Refusal::NotFitting) => println!(rt; " 47"),
        Err(Refusal::Faulty(fault, place)) => println!(rt; " {} at {place}", fault.number()),
    }
}

// The named fields of a result record.
fn result(rt: &impl Print, text: &[u8], offset: u16, length: u16) -> io::Result<()> {
    let at = usize::from(offset);
    let Some(record) = text.get(at..at + usize::from(length)) else {
        return Ok(());
    };
    let delimiters = kinds::delimiters_of(text);
    print!(rt; "    ")?;
    for field in [
        ResultField::Test,
        ResultField::Value,
        ResultField::Units,
        ResultField::Flag,
        ResultField::Status,
        ResultField::Completion,
    ] {
        part(rt, component::result_field(delimiters, record, field))?;
    }
    println!(rt)
}

fn part(rt: &impl Print, bytes: &[u8]) -> io::Result<()> {
    rt.write_all(b" [")?;
    rt.write_all(bytes)?;
    rt.write_all(b"]")
}

// A text that is read into places for two records and three owners: the memory after that, and the answer.
pub fn reading(rt: &impl Print, text: &[u8]) -> io::Result<()> {
    let mut types = [b'.'; 2];
    let mut offsets = [7u16; 2];
    let mut lengths = [7u16; 2];
    let mut owners = [7u16; 3];
    let reading = owner::read(text, &mut types, &mut offsets, &mut lengths, &mut owners);
    part(rt, &types)?;
    for n in offsets.iter().chain(&lengths).chain(&owners) {
        print!(rt; " {n}")?;
    }
    answer(rt, reading)
}

// A text escaped into memory of 16 bytes.
pub fn escaped(rt: &impl Print, d: Delimiters, text: &[u8]) -> io::Result<()> {
    let mut out = [b'.'; 16];
    put(rt, escaping::escape(d, text, &mut out))?;
    part(rt, &out)?;
    println!(rt)
}

// A component unescaped into memory of 8 bytes.
pub fn unescaped(rt: &impl Print, d: Delimiters, text: &[u8]) -> io::Result<()> {
    let mut out = [b'.'; 8];
    put(rt, escaping::unescape(d, text, &mut out))?;
    part(rt, &out)?;
    println!(rt)
}

fn put(rt: &impl Print, put: Result<usize, escaping::Refusal>) -> io::Result<()> {
    match put {
        Ok(n) => print!(rt; " {n}"),
        Err(escaping::Refusal::Malformed) => print!(rt; " 46"),
        Err(escaping::Refusal::NotFitting) => print!(rt; " 47"),
        Err(escaping::Refusal::BadDelimiters) => print!(rt; " 55"),
    }
}

// Where each component of a text ends.
#[tactic(auto, using(crate::proofs::Components::ends_within))]
pub fn components(rt: &impl Print, d: Delimiters, text: &[u8]) -> io::Result<()> {
    // A `while`, as each search starts behind what the one before found: a chain of `successors` is no plainer.
    let mut at = 0;
    while at < text.len() {
        let end = component::component_end(d, text, at);
        print!(rt; " {end}")?;
        at = end + 1;
    }
    println!(rt)
}
