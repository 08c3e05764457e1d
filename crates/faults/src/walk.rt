// The records of a text, front to back, up to the first that is wrong.
ghost use Rattle.std.specs.Prelude.{◌+◌, ◌<◌, ◌≤◌, ◌≡◌, length, drop};
ghost use Rattle.memory.specs.Sizes.{message_limit};
ghost use Rattle.kinds.specs.Delimiters.{delimiters_of};
ghost use Rattle.records.specs.Records.{records};
ghost use Rattle.faults.specs.Faults.{rest_fault, records_fault};

use crate::Flaw;
use characters::CR;
use kinds::Delimiters;
use sequence::Counts;

// All records, by the delimiters that the text names.
pub fn records_fault(d: Delimiters, text: &[u8]) -> Result<(), Flaw>
    requires { (d ≡ delimiters_of text.now) × (0 < length text.now) × (length text.now ≤ message_limit) }
    ensures { result ≡ records_fault d (records text.now) }
{
    let e = records::index_of(text, CR);
    let last = text.len() <= e + 1;
    match crate::judging::check_header(d, last, &text[..e]) {
        Ok(s) => rest_fault(d, s, text, e + 1),
        Err(f) => Err(Flaw::Faulty(f, 1)),
    }
}

// Those behind the first, which start here.
fn rest_fault(d: Delimiters, counts: Counts, text: &[u8], start: usize) -> Result<(), Flaw>
    requires { (length text.now ≤ message_limit) × (0 < start) × (start ≤ length text.now + 1) }
    ensures { result ≡ rest_fault d counts 2 (records (drop start text.now)) }
{
    let mut s = counts;
    let mut at = start;
    let mut place: u16 = 2;
    // A turn takes one record: its step is that record's length.
    while at < text.len() {
        let tail = &text[at..];
        let e = records::index_of(tail, CR);
        let last = tail.len() <= e + 1;
        match crate::judging::check_record(d, s, last, &tail[..e]) {
            Ok(t) => {
                s = t;
                place += 1;
                at = at + (e + 1);
            }
            Err(f) => {
                return Err(Flaw::Faulty(f, place));
            }
        }
    }
    Ok(())
}
