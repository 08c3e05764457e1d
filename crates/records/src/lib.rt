// The records of a text: where one ends, how many there are, and how the text ends.
#![tactic(auto)]

ghost use Rattle.std.specs.Prelude.{◌≡◌, ◌++◌, length};
ghost use Rattle.memory.specs.Tests.{is, find};
ghost use Rattle.records.specs.Records.{records, ending_of};

use characters::CR;

mod ends; // ends.rt: how many records of a text are ended
mod last; // last.rt: the last record of a text

// The index of the first byte b, or the length where there is none. No option: what is cut off there is the whole text then.
pub fn index_of(text: &[u8], b: u8) -> usize
    ensures { result ≡ find (is b) text.now }
{
    text.iter().position(|x| *x == b).unwrap_or(text.len())
}

// The number of records; bytes behind the last CR count as one.
pub fn count_records(text: &[u8]) -> usize
    ensures { result ≡ length (records text.now) }
{
    let n = ends::count(text);
    let len = text.len();
    if len == 0 {
        return n;
    }
    if text[len - 1] == CR {
        return n;
    }
    n + 1
}

// How a text ends: without CR, with a record that begins with L, or with another record.
#[derive(Clone, Copy)]
pub enum Ending {
    WithoutCr,
    WithL,
    WithOther,
}

// The ending of a text that lies in two pieces: what came before, and what is joined to it.
pub fn ending_of(old: &[u8], new: &[u8]) -> Ending
    ensures { result ≡ ending_of (old.now ++ new.now) }
{
    if 0 < new.len() {
        return last::ending_in(old, new);
    }
    // Nothing is joined, so that the two may change places.
    if 0 < old.len() {
        return last::ending_in(new, old);
    }
    Ending::WithoutCr
}
