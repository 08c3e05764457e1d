// Whether a text is a message, in one walk that ends at the first fault. The text ends with CR, so a byte that is not CR is not its last.
ghost use Rattle.std.specs.Prelude.{◌≡◌, ◌<◌, true, length, ◌≢◌};
ghost use Rattle.memory.specs.Tests.{find};
ghost use Rattle.characters.specs.Control.{cr};
ghost use Rattle.characters.specs.Allowed.{ordinary, class_table};
ghost use Rattle.kinds.specs.Kinds.{type_of, may_follow};
ghost use Rattle.records.specs.Fields.{before};
ghost use Rattle.records.specs.Records.{ends_with_cr};
ghost use Rattle.sequence.specs.Numbers.{number_of, started, counted};
ghost use Rattle.message.specs.Inner.Rest.{breaks, right_rest, counts_of, Tally, LedTo, Follows};

use kinds::{Delimiters, Kind};

// Where a text's first record is broken off, by its CR or by a byte that is not allowed. Two bytes a turn: by a `for` over the bytes, a
// message of 4,000 bytes in 7 records takes 28,368 instructions to check, and not 14,417, which misses the goal of docs/SPEED.md.
pub fn end_of(classes: &[u8; 256], text: &[u8]) -> usize
    requires { (classes.now ≡ class_table) × (ends_with_cr text.now ≡ true) }
    ensures { result ≡ find breaks text.now }
{
    let mut i: usize = 0;
    while characters::is_ordinary(classes, text[i]) {
        if !characters::is_ordinary(classes, text[i + 1]) {
            return i + 1;
        }
        i += 2;
    }
    i
}

// The type that the bytes before the first b name, if they name one.
#[tactic(auto, using(crate::proofs::Starting::type_here))]
fn type_at(b: u8, text: &[u8]) -> Option<Kind>
    requires { ends_with_cr text.now ≡ true }
    ensures { result ≡ type_of (before b text.now) }
{
    let first = text[0];
    if first == b {
        return None;
    }
    let k = kinds::kind_of(first)?;
    if text[1] != b {
        return None;
    }
    Some(k)
}

// The number in a record's field at its start, or 0: at most six digits, and no zero first. No option: the rule, `number_of`, has 0 for
// no number, and so has the loop where there is no digit, which an option would have to test at each way out.
fn number_at(b: u8, text: &[u8]) -> u32
    requires { ends_with_cr text.now ≡ true }
    ensures { result ≡ number_of (before b (before cr text.now)) }
{
    let mut n: u32 = 0;
    for i in 0..6 {
        let c = text[i];
        if c == b {
            return n;
        }
        let v = std::num::wrapping_sub_u8(c, b'0');
        if 9 < v {
            if c == characters::CR {
                return n;
            }
            return 0;
        }
        n = n * 10 + v as u32;
        if n == 0 {
            return 0;
        }
    }
    // Behind six digits the field ends, or is too long.
    if text[6] == b {
        return n;
    }
    if text[6] == characters::CR {
        return n;
    }
    0
}

// The counts behind a record of type k with number n, and the type of the last other record: C and M are passed over.
fn count_on(counts: &mut [u32; 8], other: Kind, k: Kind, n: u32) -> Kind
    requires { (may_follow other k ≡ true) × Tally other counts.old }
    ensures { (counts_of result counts.new ≡ counted (counts_of other counts.old) k n) × Tally result counts.new }
{
    counts[k as usize] = n;
    match k {
        Kind::Comment | Kind::Manufacturer => return other,
        Kind::Patient => counts[Kind::Order as usize] = 0,
        Kind::Order => counts[Kind::Result as usize] = 0,
        _ => {}
    }
    counts[Kind::Comment as usize] = 0;
    counts[Kind::Manufacturer as usize] = 0;
    k
}

// What the record at a text's start leads to by its type and its number: the counts, and the type of the last other record, or none for a
// fault. Its end is not known yet.
fn lead(
    d: Delimiters,
    followers: &[[bool; 8]; 8],
    other: Kind,
    counts: &mut [u32; 8],
    text: &[u8],
) -> Option<Kind>
    requires { (d.field ≢ cr) × Follows followers.now × Tally other counts.old × (ends_with_cr text.now ≡ true) }
    ensures { LedTo d (counts_of other counts.old) (before cr text.now) result counts.new }
{
    let k = type_at(d.field, text)?;
    if !followers[other as usize][k as usize] {
        return None;
    }
    let n = number_at(d.field, &text[2..]);
    if n == 0 {
        return None;
    }
    if n - 1 != counts[k as usize] {
        return None;
    }
    Some(count_on(counts, other, k, n))
}

// Whether the records behind a proper header, the rest of a text, make a message of it.
pub fn is_right(d: Delimiters, classes: &[u8; 256], rest: &[u8]) -> bool
    requires { (ordinary d.field ≡ true) × (classes.now ≡ class_table) × (0 < length rest.now → ends_with_cr rest.now ≡ true) }
    ensures { result ≡ right_rest d started rest.now }
{
    // A constant is laid out anew wherever it is named, so the table is taken once.
    let followers = kinds::FOLLOWERS;
    let mut counts = [0u32; 8];
    let mut other = Kind::Header;
    let mut at: usize = 0;
    // A turn takes one record: its step is that record's length, so there is no `for` for it.
    while at < rest.len() {
        let tail = &rest[at..];
        let Some(last) = lead(d, &followers, other, &mut counts, tail) else {
            return false;
        };
        other = last;
        // Its type and a delimiter were read: its end is behind them.
        let behind = &tail[2..];
        let e = end_of(classes, behind);
        if behind[e] != characters::CR {
            return false;
        }
        at += e + 3;
    }
    matches!(other, Kind::Terminator)
}
