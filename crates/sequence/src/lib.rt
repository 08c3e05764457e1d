// Sequence numbers: a field that is one, what each type has reached, and what a record makes of that.
#![tactic(auto)]

ghost use Rattle.std.specs.Prelude.{◌≡◌};
ghost use Rattle.sequence.specs.Numbers.{number_of, count_of, restarted, counted};

use kinds::Kind;

// The last record that is neither C nor M, and the number that each type has reached.
#[derive(Clone, Copy)]
pub struct Counts {
    pub other: Kind,
    pub patients: u32,
    pub queries: u32,
    pub orders: u32,
    pub results: u32,
    pub comments: u32,
    pub manufacturers: u32,
}

// A decimal number from 1 to 999999 with no leading zero, or 0 for any other field. No option: no record has the number 0, so a test of 0 is
// the test of none, as in `number_of`.
pub fn number(f: &[u8]) -> u32
    ensures { result ≡ number_of f.now }
{
    if f.len() == 0 {
        return 0;
    }
    if 6 < f.len() {
        return 0;
    }
    if f[0] == b'0' {
        return 0;
    }
    let mut n: u32 = 0;
    for b in f {
        if !b.is_ascii_digit() {
            return 0;
        }
        n = n * 10 + (*b - b'0') as u32;
    }
    n
}

// The number that a type has reached; L always has 1.
pub fn count_of(s: Counts, k: Kind) -> u32
    ensures { result ≡ count_of s k }
{
    match k {
        Kind::Header => 0,
        Kind::Patient => s.patients,
        Kind::Order => s.orders,
        Kind::Result => s.results,
        Kind::Query => s.queries,
        Kind::Terminator => 0,
        Kind::Comment => s.comments,
        Kind::Manufacturer => s.manufacturers,
    }
}

// The counts behind a record of type k that is neither C nor M: C and M restart.
fn restart(s: Counts, k: Kind) -> Counts
    ensures { result ≡ restarted s k }
{
    Counts {
        other: k,
        comments: 0,
        manufacturers: 0,
        ..s
    }
}

// The counts after a record of a type with number n.
pub fn count_on(s: Counts, k: Kind, n: u32) -> Counts
    ensures { result ≡ counted s k n }
{
    let t = restart(s, k);
    match k {
        Kind::Header => s,
        Kind::Patient => Counts {
            patients: n,
            orders: 0,
            ..t
        },
        Kind::Order => Counts {
            orders: n,
            results: 0,
            ..t
        },
        Kind::Result => Counts { results: n, ..t },
        Kind::Query => Counts { queries: n, ..t },
        Kind::Terminator => t,
        Kind::Comment => Counts { comments: n, ..s },
        Kind::Manufacturer => Counts {
            manufacturers: n,
            ..s
        },
    }
}
