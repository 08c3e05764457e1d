// What stands behind a line's letter: two hex digits, seconds, or the length of a buffer.
ghost use Rattle.std.specs.Prelude.{◌≡◌, ◌<◌, ◌≤◌, IfSome, length, drop, slice_index};
ghost use Rattle.memory.specs.Sizes.{message_limit};
ghost use Rattle.listing.specs.Items.{shortest, operand_at, hex_value, operand_of, byte_item, seconds_item, taking_item, amount_of};

use super::Item;
use looking::{Event, Kind};

// Where the operand starts, behind digit, space, letter, space.
const OPERAND: usize = 4;

#[tactic(auto, unfolding(crate::specs::Items::operand_of), using(memory::proofs::Branches::branches))]
pub fn operand(line: u8, text: &[u8]) -> Option<Item>
    requires { shortest ≤ length text.now }
    ensures { result ≡ operand_of line (slice_index text.now 2) (drop operand_at text.now) }
{
    match text[2] {
        b'B' => byte_item(line, text),
        b'S' => seconds_item(line, text),
        b'T' => taking_item(line, text),
        _ => None,
    }
}

fn byte_item(line: u8, text: &[u8]) -> Option<Item>
    requires { shortest ≤ length text.now }
    ensures { result ≡ byte_item line (drop operand_at text.now) }
{
    if text.len() != OPERAND + 2 {
        return None;
    }
    let high = hex_value(text[OPERAND])?;
    let low = hex_value(text[OPERAND + 1])?;
    Some(Item::Event(Event {
        line,
        kind: Kind::Byte(high * 16 + low),
    }))
}

fn seconds_item(line: u8, text: &[u8]) -> Option<Item>
    requires { shortest ≤ length text.now }
    ensures { result ≡ seconds_item line (drop operand_at text.now) }
{
    let n = amount_of(text, 255)?;
    Some(Item::Event(Event {
        line,
        kind: Kind::Seconds(n as u8),
    }))
}

fn taking_item(line: u8, text: &[u8]) -> Option<Item>
    requires { shortest ≤ length text.now }
    ensures { result ≡ taking_item line (drop operand_at text.now) }
{
    let n = amount_of(text, memory::MESSAGE_LIMIT)?;
    Some(Item::Taking(line, n))
}

// The decimal number that the operand is, if it is at most `most`.
fn amount_of(text: &[u8], most: usize) -> Option<usize>
    requires { (shortest ≤ length text.now) × (most ≤ message_limit) }
    ensures { result ≡ amount_of most (drop operand_at text.now) }
{
    let mut n: usize = 0;
    for &b in &text[OPERAND..] {
        let digit = match b {
            b'0'..=b'9' => b - b'0',
            _ => return None,
        };
        n = n * 10 + usize::from(digit);
        if most < n {
            return None;
        }
    }
    Some(n)
}

// The value of a hex digit of either case.
#[tactic(auto, unfolding(crate::specs::Items::hex_value), using(memory::proofs::Branches::branches))]
fn hex_value(b: u8) -> Option<u8>
    ensures value { result ≡ hex_value b }
    ensures digit { IfSome result (λ n. n < 16) }
{
    match b {
        b'0'..=b'9' => Some(b - b'0'),
        b'A'..=b'F' => Some(b - b'A' + 10),
        b'a'..=b'f' => Some(b - b'a' + 10),
        _ => None,
    }
}
