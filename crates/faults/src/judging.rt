// One record: its type, its place and its number.
ghost use Rattle.std.specs.Prelude.{◌≡◌, take, drop, Some};
ghost use Rattle.memory.specs.Tests.{is, find};
ghost use Rattle.kinds.specs.Delimiters.{delimiters_of};
ghost use Rattle.kinds.specs.Header.{is_header};
ghost use Rattle.kinds.specs.Kinds.{type_of, is_terminator};
ghost use Rattle.records.specs.Fields.{field_of};
ghost use Rattle.sequence.specs.Numbers.{number_of};
ghost use Rattle.faults.specs.Faults.{placed, kind_step, record_step, header_step};

use answers::Fault;
use kinds::{Delimiters, Kind};
use sequence::Counts;

fn is_terminator(k: Kind) -> bool
    ensures { result ≡ is_terminator k }
{
    match k {
        Kind::Header => false,
        Kind::Patient => false,
        Kind::Order => false,
        Kind::Result => false,
        Kind::Query => false,
        Kind::Terminator => true,
        Kind::Comment => false,
        Kind::Manufacturer => false,
    }
}

// L stands last, and nothing else does.
fn is_placed(last: bool, k: Kind) -> bool
    ensures { result ≡ placed last k }
{
    if last { is_terminator(k) } else { true }
}

// The index of the first byte b among the first k bytes; where there is none, k, or the length if that is less.
fn index_within(text: &[u8], b: u8, k: usize) -> usize
    ensures { result ≡ find (is b) (take k text.now) }
{
    if text.len() <= k {
        return records::index_of(text, b);
    }
    records::index_of(&text[..k], b)
}

// The type that field 1 names, if any. It is one byte, so two bytes tell.
fn type_of(b: u8, rec: &[u8]) -> Option<Kind>
    ensures { result ≡ type_of (field_of b 1 rec.now) }
{
    let e = index_within(rec, b, 2);
    if e != 1 {
        return None;
    }
    let first = rec[0];
    kinds::kind_of(first)
}

// The number in field 2, where field 1 is one byte, or 0. A number has at most six digits, so seven bytes tell.
fn sequence_of(b: u8, rec: &[u8]) -> u32
    ensures { result ≡ number_of (field_of b 1 (drop 2 rec.now)) }
{
    if rec.len() <= 2 {
        return 0;
    }
    let rest = &rec[2..];
    let e = index_within(rest, b, 7);
    sequence::number(&rest[..e])
}

// What a record of a known type with number n leads to.
fn check_kind(s: Counts, last: bool, k: Kind, n: u32) -> Result<Counts, Fault>
    ensures { result ≡ kind_step s last (Some k) n }
{
    let other = s.other;
    if !kinds::may_follow(other, k) {
        return Err(Fault::Misplaced); // whatever its number
    }
    if !is_placed(last, k) {
        return Err(Fault::Misplaced);
    }
    if n == 0 {
        return Err(Fault::Misnumbered);
    }
    if n - 1 != sequence::count_of(s, k) {
        return Err(Fault::Misnumbered);
    }
    Ok(sequence::count_on(s, k, n))
}

// A record behind the first.
pub fn check_record(d: Delimiters, s: Counts, last: bool, rec: &[u8]) -> Result<Counts, Fault>
    ensures { result ≡ record_step d s last rec.now }
{
    let b = d.field;
    let k = type_of(b, rec).ok_or(Fault::UnknownType)?;
    check_kind(s, last, k, sequence_of(b, rec))
}

// The first record, by the delimiters that it names where it is long enough to name them.
pub fn check_header(d: Delimiters, last: bool, rec: &[u8]) -> Result<Counts, Fault>
    requires { is_header d rec.now ≡ is_header (delimiters_of rec.now) rec.now }
    ensures { result ≡ header_step d last rec.now }
{
    if !kinds::is_header(rec) {
        return Err(Fault::NoHeader);
    }
    if !kinds::are_delimiters(d) {
        return Err(Fault::BadDelimiters);
    }
    if last {
        return Err(Fault::Misplaced);
    }
    Ok(Counts {
        other: Kind::Header,
        patients: 0,
        queries: 0,
        orders: 0,
        results: 0,
        comments: 0,
        manufacturers: 0,
    })
}
