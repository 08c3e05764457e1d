// The bytes of E1381 and E1394: the control bytes, and which bytes a text may have.
#![tactic(auto)]

ghost use Rattle.std.specs.Prelude.{◌≡◌, not, slice_index};
ghost use Rattle.memory.specs.Tests.{is, all};
ghost use Rattle.characters.specs.Allowed.{allowed, ordinary, plus, dash, class_table};

mod printable; // printable.rt: texts of printable bytes

pub const STX: u8 = 0x02;

pub const ETX: u8 = 0x03;

pub const EOT: u8 = 0x04;

pub const ENQ: u8 = 0x05;

pub const LF: u8 = 0x0a;

pub const CR: u8 = 0x0d;

pub const ETB: u8 = 0x17;

// The class of every byte, 256 of them, sixteen to a row: '+' where E1394 allows the byte in a text, '.' for CR, which is allowed too
// and ends a record, '-' where the byte is not allowed.
const CLASSES: [u8; 256] = *b"\
    -------+-+-++.--\
    ----------------\
    ++++++++++++++++\
    ++++++++++++++++\
    ++++++++++++++++\
    ++++++++++++++++\
    ++++++++++++++++\
    +++++++++++++++-\
    ++++++++++++++++\
    ++++++++++++++++\
    ++++++++++++++++\
    ++++++++++++++++\
    ++++++++++++++++\
    ++++++++++++++++\
    ++++++++++++++++\
    +++++++++++++++-\
";

// The classes as a value: a loop that looks bytes up takes it once, as a constant is laid out anew wherever it is named.
pub fn classes() -> [u8; 256]
    ensures { result ≡ class_table }
{
    CLASSES
}

// Whether b is not marked '-' in a table of classes: in the one above, whether it is allowed.
pub fn is_marked(classes: &[u8; 256], b: u8) -> bool
    ensures { (result ≡ not (is dash (slice_index classes.now b))) × (classes.now ≡ class_table → result ≡ allowed b) }
{
    classes[b as usize] != b'-'
}

// Whether b is marked '+': in the table above, whether it is allowed and not CR.
pub fn is_ordinary(classes: &[u8; 256], b: u8) -> bool
    ensures { (result ≡ is plus (slice_index classes.now b)) × (classes.now ≡ class_table → result ≡ ordinary b) }
{
    classes[b as usize] == b'+'
}

// Whether E1394 allows every byte of the text. Printable bytes are, and looked for first, as the table is slower.
pub fn all_allowed(text: &[u8]) -> bool
    ensures { result ≡ all allowed text.now }
{
    if printable::is_printable(text) {
        return true;
    }
    let table = classes();
    for b in text {
        if !is_marked(&table, *b) {
            return false;
        }
    }
    true
}
