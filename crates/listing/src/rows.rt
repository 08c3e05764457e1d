// The columns of an event's row.
ghost use Rattle.std.specs.Prelude.{◌≡◌, ◌+◌, ◌≤◌, length, nat_le};
ghost use Rattle.memory.specs.Parts.{splice};
ghost use Rattle.listing.specs.Texts.{word_text, last_text, no_digits, reply_digits, row_text};

use digits::Digits;

// The answer to a taking that took an entry: its row shows the entry's length.
const TAKEN: u8 = 8;

// The longest row: 20, 3, 3 and 20 digits, three spaces and the newline.
const LONGEST: usize = 50;

// Whether the row fits into `room` bytes. It is measured only where the longest row would not fit.
pub fn has_room(event: u64, line: u8, number: u8, taken: usize, room: usize) -> bool
    ensures { result ≡ nat_le (length (row_text event line number taken)) room }
{
    if LONGEST <= room {
        return true;
    }
    measure(event, line, number, taken) <= room
}

fn measure(event: u64, line: u8, number: u8, taken: usize) -> usize
    ensures { result ≡ length (row_text event line number taken) }
{
    let columns = decimal::size(event) + decimal::size(line as u64) + decimal::size(number as u64);
    columns + last_size(number, taken) + 4 // three spaces and the newline
}

fn last_size(number: u8, taken: usize) -> usize
    ensures { (result ≡ length (last_text number taken)) × (result ≤ 20) }
{
    if number == TAKEN {
        return decimal::size(taken as u64);
    }
    2
}

// Writes the row, and says where it ends.
pub fn put(event: u64, line: u8, number: u8, taken: usize, out: &mut [u8], at: usize) -> usize
    requires { at + length (row_text event line number taken) ≤ length out.old }
    ensures { (result ≡ at + length (row_text event line number taken)) × (out.new ≡ splice out.old at (row_text event line number taken)) }
{
    let second = put_word(event, out, at);
    let third = put_word(line as u64, out, second);
    let last = put_word(number as u64, out, third);
    let end = put_last(number, taken, out, last);
    out[end] = b'\n';
    end + 1
}

// Writes a number and a space, and says where they end. A number of one digit, as most lines and answers are, asks for nothing else.
fn put_word(n: u64, out: &mut [u8], at: usize) -> usize
    requires { at + length (word_text n) ≤ length out.old }
    ensures { (result ≡ at + length (word_text n)) × (out.new ≡ splice out.old at (word_text n)) }
{
    if n < 10 {
        out[at] = b'0' + n as u8;
        out[at + 1] = b' ';
        return at + 2;
    }
    let end = decimal::put(n, out, at);
    out[end] = b' ';
    end + 1
}

// Writes the last column, and says where it ends.
fn put_last(number: u8, taken: usize, out: &mut [u8], at: usize) -> usize
    requires { at + length (last_text number taken) ≤ length out.old }
    ensures { (result ≡ at + length (last_text number taken)) × (out.new ≡ splice out.old at (last_text number taken)) }
{
    if number == TAKEN {
        return decimal::put(taken as u64, out, at);
    }
    let digits = reply_digits(number);
    out[at] = digits.high;
    out[at + 1] = digits.low;
    at + 2
}

// The reply to an answer, as two hex digits, or two dashes for none.
fn reply_digits(number: u8) -> Digits
    ensures { result ≡ reply_digits number }
{
    let reply = answers::reply_to(number);
    match reply {
        None => dashes(),
        Some(b) => digits::check_digits(b),
    }
}

fn dashes() -> Digits
    ensures { result ≡ no_digits }
{
    Digits {
        high: b'-',
        low: b'-',
    }
}
