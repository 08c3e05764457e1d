// The delimiters of a message, the types of its records, and what may follow what.
#![tactic(auto)]

ghost use Rattle.std.specs.Prelude.{◌≡◌, get_or};
ghost use Rattle.kinds.specs.Delimiters.{four_at, delimiters_of, is_delimiter, different, are_delimiters};
ghost use Rattle.kinds.specs.Kinds.{kind_of, may_follow};
ghost use Rattle.kinds.specs.Header.{is_header};

// How many delimiters a header names.
pub const DELIMITERS: usize = 4;

// The delimiters of a message: between fields, between repeats, between components, and around an escape.
#[derive(Clone, Copy)]
pub struct Delimiters {
    pub field: u8,
    pub repeat: u8,
    pub component: u8,
    pub escape: u8,
}

impl Delimiters {
    // Four bytes, in the order in which a header names them.
    pub fn of_four(four: &[u8; DELIMITERS]) -> Delimiters
        ensures { result ≡ four_at 0 four.now }
    {
        Delimiters {
            field: four[0],
            repeat: four[1],
            component: four[2],
            escape: four[3],
        }
    }
}

// The byte at this place, or 0 where there is none.
fn byte_at(text: &[u8], i: usize) -> u8
    ensures { result ≡ get_or text.now i 0 }
{
    text.get(i).copied().unwrap_or(0)
}

// The delimiters in force in a text: the four behind its first byte.
#[tactic(auto, unfolding(crate::specs::Delimiters::delimiters_of))]
pub fn delimiters_of(text: &[u8]) -> Delimiters
    ensures { result ≡ delimiters_of text.now }
{
    Delimiters {
        field: byte_at(text, 1),
        repeat: byte_at(text, 2),
        component: byte_at(text, 3),
        escape: byte_at(text, 4),
    }
}

// Whether a byte may be a delimiter.
#[tactic(auto, unfolding(crate::specs::Delimiters::is_delimiter))]
pub fn is_delimiter(b: u8) -> bool
    ensures { result ≡ is_delimiter b }
{
    b.is_ascii_punctuation()
}

#[tactic(auto, unfolding(crate::specs::Delimiters::different))]
fn are_different(d: Delimiters) -> bool
    ensures { result ≡ different d }
{
    d.repeat != d.field
        && d.component != d.field
        && d.escape != d.field
        && d.component != d.repeat
        && d.escape != d.repeat
        && d.escape != d.component
}

// Whether the four may be the delimiters of a message.
#[tactic(auto, unfolding(crate::specs::Delimiters::are_delimiters))]
pub fn are_delimiters(d: Delimiters) -> bool
    ensures { result ≡ are_delimiters d }
{
    is_delimiter(d.field)
        && is_delimiter(d.repeat)
        && is_delimiter(d.component)
        && is_delimiter(d.escape)
        && are_different(d)
}

// The record types, in the order of their rows: H P O R Q L C M.
#[derive(Clone, Copy)]
pub enum Kind {
    Header,
    Patient,
    Order,
    Result,
    Query,
    Terminator,
    Comment,
    Manufacturer,
}

// The type that a letter names, if it names one.
#[tactic(auto, unfolding(crate::specs::Kinds::kind_of))]
pub fn kind_of(b: u8) -> Option<Kind>
    ensures { result ≡ kind_of b }
{
    match b {
        b'H' => Some(Kind::Header),
        b'P' => Some(Kind::Patient),
        b'O' => Some(Kind::Order),
        b'R' => Some(Kind::Result),
        b'Q' => Some(Kind::Query),
        b'L' => Some(Kind::Terminator),
        b'C' => Some(Kind::Comment),
        b'M' => Some(Kind::Manufacturer),
        _ => None,
    }
}

// A row for each type, H P O R Q L C M: the types that may follow it. C and M are passed over, so their own rows are not asked.
pub const FOLLOWERS: [[bool; 8]; 8] = [
    [false, true, true, false, true, true, true, true],
    [false, true, true, false, true, true, true, true],
    [false, true, true, true, true, true, true, true],
    [false, true, true, true, true, true, true, true],
    [false, true, false, false, true, true, true, true],
    [false, false, false, false, false, false, false, false],
    [false, false, false, false, false, false, false, false],
    [false, false, false, false, false, false, false, false],
];

// Whether a record of type k may stand where `other` is the last record that is neither C nor M.
pub fn may_follow(other: Kind, k: Kind) -> bool
    ensures { result ≡ may_follow other k }
{
    FOLLOWERS[other as usize][k as usize]
}

// Whether the record is a header by the delimiters that it names itself: five bytes, and the first is H.
#[tactic(auto, using(crate::proofs::Named::own_header))]
pub fn is_header(rec: &[u8]) -> bool
    ensures { result ≡ is_header (delimiters_of rec.now) rec.now }
{
    rec.len() >= 5 && rec[0] == b'H'
}
