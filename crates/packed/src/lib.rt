// Packed fields: a number as bytes of lent memory, the highest first. Every function is total: where there is no such field, or where it does
// not hold the number, it changes nothing and says so.
#![tactic(auto)]

ghost use Rattle.std.specs.Prelude.{◌≡◌, ◌<◌, ◌^◌, leb};
ghost use Rattle.packed.specs.Fields.{octets, width, field_at, FieldWritten};

// The longest packed field's bytes: as many as its number, a u64, has.
const LONGEST_FIELD: usize = 8;

// The number in the packed field of `size` bytes at `at`, the highest byte first, if the memory has such a field.
pub fn read_field(area: &[u8], at: usize, size: usize) -> Option<u64>
    ensures { result ≡ field_at area.now at size }
{
    if LONGEST_FIELD < size {
        return None;
    }
    if area.len() < at {
        return None;
    }
    if area.len() - at < size {
        return None;
    }
    let mut n: u64 = 0;
    for b in &area[at..at + size] {
        n = n * 256 + *b as u64;
    }
    Some(n)
}

// Writes n into the packed field of `size` bytes at `at`, the highest byte first, if the field holds it.
pub fn write_field(area: &mut [u8], at: usize, size: usize, n: u64) -> bool
    ensures { FieldWritten area.old at size n result area.new }
{
    if LONGEST_FIELD < size {
        return false;
    }
    if area.len() < at {
        return false;
    }
    if area.len() - at < size {
        return false;
    }
    if exceeds(n, size) {
        return false;
    }
    let mut rest = n;
    for i in (at..at + size).rev() {
        area[i] = (rest % 256) as u8;
        rest /= 256;
    }
    true
}

// Whether n needs more than `size` bytes.
fn exceeds(n: u64, size: usize) -> bool
    ensures { result ≡ leb (2 ^ width (octets size)) n }
{
    let mut rest = n;
    for _ in 0..size {
        rest /= 256;
    }
    0 < rest
}
