// The header of an entry, read and spelt; and the room that an entry takes. Nothing else knows how a header is laid out.
// Every function that another crate can call is total: it is given a text's length as a u32, so that no sum can overflow.
#![tactic(auto)]

ghost use Rattle.std.specs.Prelude.{◌≡◌, ◌+◌, ◌≤◌, ◌<◌};
ghost use Rattle.packed.specs.Fields.{unpack, longest_field};
ghost use Rattle.header.specs.Header.{head_widths, serial_count, head_size, entry_size, head_number, fields_of};
ghost use Rattle.header.specs.Inner.Entry.{whole_head};
ghost use Rattle.header.specs.Entry.{first_head};

#[derive(Clone, Copy)]
pub struct Header {
    pub line: usize,
    pub spare: u8,
    pub count: usize,
    pub serial: u16,
}

// No header is shorter.
pub const LEAST_HEAD: usize = 4;

// What one weighs in the number that a header spells: of the text's length, of the spare bit, of the line.
const LENGTH_AT: u64 = 65536;

const SPARE_AT: u64 = 268435456;

const LINE_AT: u64 = 536870912;

// The bytes of a header, and of an entry, by the length of the text.
#[tactic(auto, unfolding(crate::specs::Header::head_size))]
pub fn head_size(count: u32) -> usize
    ensures { (result ≡ head_size count) × (result ≤ longest_field) }
{
    LEAST_HEAD
}

pub fn entry_size(count: u32) -> usize
    ensures { (result ≡ entry_size count) × (result ≤ longest_field + count) }
{
    head_size(count) + count as usize
}

// The number that the bytes of a header spell: its spare bit is 0. That the serial is one is said for callers that read it from an array.
pub fn number(line: u8, count: u32, serial: u16) -> u64
    ensures { (result ≡ head_number line count serial) × (serial < serial_count) }
{
    line as u64 * LINE_AT + count as u64 * LENGTH_AT + serial as u64
}

// The header that a number spells: line 3 bits, spare 1, text length 12, serial 16.
#[tactic(auto, using(crate::proofs::Heads::fields_by_number))]
fn fields(n: u64) -> Header
    ensures { result ≡ fields_of (unpack head_widths n) }
{
    Header {
        line: (n / LINE_AT % 8) as usize,
        spare: (n / SPARE_AT % 2) as u8,
        count: (n / LENGTH_AT % 4096) as usize,
        serial: (n % 65536) as u16,
    }
}

// The header, if an entry with it lies within `room` bytes.
#[tactic(auto, using(crate::proofs::Starts::no_whole, crate::proofs::Starts::a_whole))]
fn whole(h: Header, room: usize) -> Option<Header>
    ensures { result ≡ whole_head h room }
{
    // The length's two tests stand side by side: they are compiled to one.
    if h.count < 1 {
        return None;
    }
    if memory::MESSAGE_LIMIT < h.count {
        return None;
    }
    if h.spare != 0 {
        return None;
    }
    let count = h.count as u32;
    if room < entry_size(count) {
        return None;
    }
    Some(h)
}

// The header of the entry that s starts with, if it starts with a whole one. No byte of the text is read.
pub fn entry_at(s: &[u8]) -> Option<Header>
    ensures { result ≡ first_head s.now }
{
    let n = packed::read_field(s, 0, LEAST_HEAD)?;
    whole(fields(n), s.len())
}
