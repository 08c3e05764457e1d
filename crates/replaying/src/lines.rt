// The next line of a trace.
ghost use Rattle.std.specs.Prelude.{◌≡◌, ◌+◌, ◌^◌, ◌<◌, ◌≤◌, IfSome, length, nat_le};
ghost use Rattle.replaying.specs.Desk.{row_room};
ghost use Rattle.replaying.specs.Lines.{first_line};
ghost use Rattle.replaying.specs.Inner.Asks.{line_length, asks_by, asks_of};
ghost use Rattle.replaying.specs.Inner.Usual.{has_newline, is_usual};

use super::Stop;
use listing::Item;

const NEWLINE: u8 = b'\n';

// The length of the usual line, as `0 B 41`.
const USUAL: usize = 6;

// What a line asks, and where the line behind it starts.
#[derive(Clone, Copy)]
pub struct Asks {
    pub item: Item,
    pub behind: usize,
}

// What comes next: the line that starts at `at`, where a listing of so many bytes has room for its row behind `put`.
pub fn next(input: &[u8], at: usize, put: usize, most: usize) -> Result<Asks, Stop>
    ensures { result ≡ asks_of input.now at put most }
{
    if !has_room(put, most) {
        return Err(Stop::Output);
    }
    if input.len() < at {
        return Err(Stop::Input);
    }
    first(&input[at..], at)
}

// Whether a listing of so many bytes has room for a row behind `put`.
#[tactic(auto, using(memory::proofs::Branches::branches))]
fn has_room(put: usize, most: usize) -> bool
    ensures { result ≡ nat_le (put + row_room) most }
{
    put <= most && super::ROW_ROOM <= most - put
}

// The first line of what is left behind `at` bytes.
fn first(rest: &[u8], at: usize) -> Result<Asks, Stop>
    requires { at + length rest.now < 2 ^ 64 }
    ensures { result ≡ asks_by (first_line rest.now at) }
{
    let n = line_length(rest).ok_or(Stop::Input)?;
    let item = listing::read(&rest[..n]).ok_or(Stop::NotAnEvent)?;
    Ok(Asks {
        item,
        behind: at + n + 1,
    })
}

// The length of the first line, if it ends. One of the usual length is seen without a scan.
fn line_length(rest: &[u8]) -> Option<usize>
    ensures value { result ≡ line_length rest.now }
    ensures within { IfSome result (λ n. n < length rest.now) }
{
    if is_usual(rest) {
        return Some(USUAL);
    }
    let n = records::index_of(rest, NEWLINE);
    if n == rest.len() {
        return None;
    }
    Some(n)
}

// Whether the first newline is the seventh byte.
#[tactic(auto, unfolding(crate::specs::Inner::Usual::is_usual), using(memory::proofs::Branches::branches))]
fn is_usual(rest: &[u8]) -> bool
    ensures { result ≡ is_usual rest.now }
{
    USUAL < rest.len() && rest[USUAL] == NEWLINE && !has_newline(rest, 0) && !has_newline(rest, 3)
}

// Whether one of the three bytes from `at` on is a newline.
#[tactic(auto, unfolding(crate::specs::Inner::Usual::has_newline), using(memory::proofs::Branches::branches))]
fn has_newline(rest: &[u8], at: usize) -> bool
    requires { at + 3 ≤ length rest.now }
    ensures { result ≡ has_newline rest.now at }
{
    rest[at] == NEWLINE || rest[at + 1] == NEWLINE || rest[at + 2] == NEWLINE
}
