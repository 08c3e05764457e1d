// What the programs of vectors read: the first bytes of their input, and bytes from hex.
#![tactic(auto)]

ghost use Rattle.std.specs.Prelude.{◌≡◌, ◌≤◌, length, take, IfOk, IfSome};
ghost use Rattle.vectors.specs.Hex.{digit_of, bytes_of};

use std::alloc::{AllocError, Global};
use std::io;
use std::io::Read;

// The first `most` bytes that a reader gives, or all where it gives fewer.
pub fn first_bytes<R: Read + Drop>(alloc: Global, reader: R, most: u64) -> io::Result<Vec<u8>>
    ensures bytes { IfOk result (λ bytes. IfSome (R.remaining reader) (λ all. bytes.items ≡ take most all)) }
    ensures most { IfOk result (λ bytes. length bytes.items ≤ most) }
{
    let mut bytes = Vec::new(alloc);
    reader.take(most).read_to_end(&mut bytes)?;
    // Of a reader whose bytes are not known, std's `take` and `read_to_end` say no length.
    bytes.truncate(most as usize);
    Ok(bytes)
}

// The value of a hex digit: 0 to 9 are the bytes 30 to 39, and A to F are 41 to 46 and 61 to 66.
// Every other byte has a value too, which the programs show, so `to_digit` and the kit's `hex`, which refuse it, do not serve.
pub fn digit(b: u8) -> u8
    ensures { result ≡ digit_of b }
{
    if b < 0x40 { b % 16 } else { (b % 16 + 9) % 16 }
}

// The bytes that pairs of hex digits spell, without a last digit that has no other.
pub fn from_hex(alloc: Global, digits: &[u8]) -> Result<Vec<u8>, AllocError>
    ensures { IfOk result (λ bytes. bytes.items ≡ bytes_of digits.now) }
{
    let (pairs, _) = digits.as_chunks::<2>();
    pairs
        .iter()
        .map(|[high, low]| digit(*high) * 16 + digit(*low))
        .collect(alloc)
}

// What no clause says: that there is memory for what is read and spelled.
#[cfg(test)]
mod tests {
    use super::*;
    use std::test::Fail;

    #[test]
    fn no_more_is_read_than_is_asked_for(rt: HostRuntime) -> Result<(), Fail> {
        let bytes = first_bytes(rt.alloc(), b"abcde".as_slice(), 3)?;
        assert_eq!(rt; bytes.as_slice(), b"abc".as_slice());
        Ok(())
    }

    #[test]
    fn a_shorter_input_is_read_to_its_end(rt: HostRuntime) -> Result<(), Fail> {
        let bytes = first_bytes(rt.alloc(), b"ab".as_slice(), 3)?;
        assert_eq!(rt; bytes.as_slice(), b"ab".as_slice());
        Ok(())
    }

    #[test]
    fn pairs_of_digits_spell_bytes(rt: HostRuntime) -> Result<(), Fail> {
        let bytes = from_hex(rt.alloc(), b"02fFa")?;
        assert_eq!(rt; bytes.as_slice(), [0x02, 0xff].as_slice());
        Ok(())
    }
}
