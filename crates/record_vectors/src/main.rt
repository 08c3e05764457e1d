// Runs the cases on standard input and writes what each gets. A line is a kind, a space, a name, a space and bytes in hex:
//   m  a text: its first fault or none, whether its last record begins with L, and for a message each record with its owner, R's fields
//   s  a text that is read into memory with room for two records
// The bytes of the other kinds begin with H and the delimiters, as a message does. Behind these five is
//   e  a text that is escaped        u  a component that is unescaped        c  a text whose components are looked for
#![tactic(auto)]

use std::io;

mod listing; // listing.rt: the lines of a case

// The most bytes of the standard input that are read.
const INPUT: u64 = 65536;

// The most bytes of a case: one of more shows nothing.
const MOST: usize = 4096;

fn main(rt: HostRuntime) -> io::Result<()> {
    let input = vectors::first_bytes(rt.alloc(), rt.stdin(), INPUT)?;
    for line in input.split(|b| *b == b'\n') {
        case(&rt, line)?;
    }
    Ok(())
}

fn case(rt: &(impl Print + AllocGlobal), line: &[u8]) -> io::Result<()> {
    let Some(kind) = line.first() else {
        return Ok(());
    };
    let mut words = line.split(|b| *b == b' ').skip(1);
    rt.write_all(words.next().unwrap_or(&[]))?;
    let bytes = vectors::from_hex(rt.alloc(), words.next().unwrap_or(&[]))?;
    if bytes.len() <= MOST {
        show(rt, *kind, &bytes)?;
    }
    Ok(())
}

fn show(rt: &impl Print, kind: u8, bytes: &[u8]) -> io::Result<()> {
    let delimiters = kinds::delimiters_of(bytes);
    let text = bytes.get(5..).unwrap_or(&[]);
    match kind {
        b'm' => listing::message(rt, bytes),
        b's' => listing::reading(rt, bytes),
        b'e' => listing::escaped(rt, delimiters, text),
        b'u' => listing::unescaped(rt, delimiters, text),
        b'c' => listing::components(rt, delimiters, text),
        _ => println!(rt),
    }
}
