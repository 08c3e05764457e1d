// The journal run by hand: steps from the standard input, one to a line, and after each what it answered, by its number, and what it left.
#![tactic(auto)]

ghost use Rattle.std.specs.Prelude.{◌≡◌};
ghost use Rattle.journal.specs.Answers.{verdict_number};

use journal::{Ledger, NotTaken, Refusal};
use std::{array, io};

// Memory for any number of a step, which has 16 bits, so that as many bytes as it says can be lent.
const MOST: usize = 65536;

// The bytes that are shown: one more than the journal has, so that more can be lent too, and those of the buffer.
const BYTES: usize = 32769;

const BUFFER: usize = 4200;

// The most bytes of the standard input that are read.
const INPUT: u64 = 4096;

fn main(rt: HostRuntime) -> io::Result<()> {
    let steps = vectors::first_bytes(rt.alloc(), rt.stdin(), INPUT)?;
    run(&rt, &steps)
}

fn run(rt: &impl Print, steps: &[u8]) -> io::Result<()> {
    let mut desk = Desk::new();
    let mut buffer = filled(0, 5);
    let mut step = Step {
        letter: b'#',
        line: 0,
        n: 0,
    };
    for (place, b) in steps.iter().enumerate() {
        if *b == b'\n' {
            desk.perform(rt, step, place, &mut buffer)?;
        } else {
            step = step.read(*b);
        }
    }
    Ok(())
}

// A step: its letter, a capital or # for a comment, and two numbers. What a line of the input leaves out stays from the one before it.
// The letter is the input's byte and no enum, as a capital that does nothing is shown too.
#[derive(Clone, Copy, Debug)]
struct Step {
    letter: u8,
    line: u16,
    n: u16,
}

impl Step {
    // The step after the next byte of its line: a digit adds to the number, and any other byte begins the next.
    fn read(self, b: u8) -> Step {
        match b {
            b' ' => Step {
                line: self.n,
                n: 0,
                ..self
            },
            b'0'..=b'9' => Step {
                n: self.n.wrapping_mul(10).wrapping_add(u16::from(b - b'0')),
                ..self
            },
            b'#' | b'A'..=b'Z' => Step {
                letter: b,
                n: 0,
                ..self
            },
            _ => Step { n: 0, ..self },
        }
    }

    // The line as the journal is given it.
    fn on(self) -> u8 {
        (self.line % 256) as u8
    }
}

// What the steps work on: the ledger, and the journal's memory with how much of it is lent.
// The memory is an array and no `Vec`: it has one length, and is lent whole or in part, as hosts lend theirs.
#[derive(Drop)]
struct Desk {
    ledger: Ledger,
    bytes: [u8; MOST],
    lent: u16,
}

impl Desk {
    fn new() -> Desk {
        Desk {
            ledger: Ledger::fresh(),
            bytes: filled(0, 3),
            lent: memory::JOURNAL_SIZE as u16,
        }
    }

    // Each step but a comment and a fresh start is shown: F is the least letter of a step.
    fn perform(
        &mut self,
        rt: &impl Print,
        step: Step,
        place: usize,
        buffer: &mut [u8; MOST],
    ) -> io::Result<()> {
        let is_shown = b'F' < step.letter;
        if is_shown {
            let letter = char::from(step.letter);
            print!(rt; "{letter} {} {}:", step.line, step.n)?;
        }
        match step.letter {
            b'T' => self.take(rt, step, buffer),
            b'S' => self.store(rt, step, place),
            b'J' => self.judge(rt, step),
            _ => {
                self.change(step);
                if is_shown { println!(rt) } else { Ok(()) }
            }
        }
    }

    fn take(&mut self, rt: &impl Print, step: Step, buffer: &mut [u8; MOST]) -> io::Result<()> {
        let lent = usize::from(self.lent);
        let taking = journal::take(
            self.ledger,
            step.on(),
            &mut self.bytes[..lent],
            &mut buffer[..usize::from(step.n)],
        );
        self.ledger = taking.ledger;
        match taking.answer {
            Ok((n, serial)) => print!(rt; " 8 {n} {serial}"),
            Err(NotTaken::NothingWaiting) => print!(rt; " 44"),
            Err(NotTaken::BufferShort) => print!(rt; " 45"),
            Err(NotTaken::Broken) => print!(rt; " 43"),
            Err(NotTaken::NoLine) => print!(rt; " 40"),
            Err(NotTaken::WrongSize) => print!(rt; " 41"),
        }?;
        self.show_left(rt, step.line)?;
        println!(rt; " {}", digest(&buffer[..BUFFER]))
    }

    // Stores a text of n bytes, another for each place of the steps.
    fn store(&mut self, rt: &impl Print, step: Step, place: usize) -> io::Result<()> {
        let text = filled(place, 7);
        let lent = usize::from(self.lent);
        let storing = journal::store(
            self.ledger,
            room::shares(),
            step.on(),
            &text[..usize::from(step.n)],
            &mut self.bytes[..lent],
        );
        self.ledger = storing.ledger;
        print!(rt; " {}", number(storing.answer))?;
        self.show_left(rt, step.line)?;
        println!(rt)
    }

    fn judge(&self, rt: &impl Print, step: Step) -> io::Result<()> {
        let lent = usize::from(self.lent);
        let verdict = journal::judge(
            self.ledger,
            room::shares(),
            step.on(),
            usize::from(step.n),
            &self.bytes[..lent],
        );
        print!(rt; " {}", number(verdict))?;
        self.show_left(rt, step.line)?;
        println!(rt)
    }

    // A fresh start, how much is lent, and what no caller does, to break the journal: the end in use, a used count, a serial, a byte.
    fn change(&mut self, step: Step) {
        let line = usize::from(step.line);
        match step.letter {
            b'F' => self.ledger = Ledger::fresh(),
            b'L' => self.lent = step.n,
            b'I' => self.ledger.in_use = usize::from(step.n),
            b'U' => self.ledger.used[line % 8] = u32::from(step.n),
            b'N' => self.ledger.serials[line % 8] = step.n,
            b'P' => self.bytes[line] = (step.n % 256) as u8,
            _ => {}
        }
    }

    // What a call left: the end in use, the line's used count and next serial, and the bytes of the journal.
    fn show_left(&self, rt: &impl Print, line: u16) -> io::Result<()> {
        print!(rt; " | {}", self.ledger.in_use)?;
        if line < 8 {
            let line = usize::from(line);
            print!(rt; " {} {}", self.ledger.used[line], self.ledger.serials[line])?;
        }
        print!(rt; " {}", digest(&self.bytes[..BYTES]))
    }
}

fn number(verdict: Result<(), Refusal>) -> u8
    ensures { result ≡ verdict_number verdict }
{
    match verdict {
        Ok(()) => 4,
        Err(Refusal::NoRoom) => 31,
        Err(Refusal::Broken) => 43,
        Err(Refusal::NoLine) => 40,
        Err(Refusal::WrongSize) => 41,
        Err(Refusal::Malformed) => 46,
    }
}

// A number of bytes, so that a change of any of them shows.
fn digest(bytes: &[u8]) -> u32 {
    bytes.iter().fold(7, |sum, b| {
        ((u64::from(sum) * 31 + u64::from(*b)) % 1000003) as u32
    })
}

// Bytes that differ from place to place, and begin by what `first` says, so that texts differ.
fn filled(first: usize, gap: u8) -> [u8; MOST] {
    array::from_fn(|i| ((first % 256 * 7 + i % 251 * usize::from(gap)) % 251) as u8)
}
