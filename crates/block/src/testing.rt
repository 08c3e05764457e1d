// The test bytes of a strip reader's blocks.
ghost use Rattle.std.specs.Prelude.{◌≡◌, ◌≤◌, length};
ghost use Rattle.block.specs.Judged.{control_length, test_byte, high_test, low_test, is_tested};

// What each half of a test byte is joined with.
const HALF: u8 = 0x30;

// Whether the two bytes before the last are the test bytes of all before them, from STX on.
pub fn is_tested(block: &[u8]) -> bool
    requires { control_length ≤ length block.now }
    ensures { result ≡ is_tested block.now }
{
    let counted = block.len() - 3;
    let test = test_byte(&block[0..counted]);
    block[counted] == high_half(test) && block[counted + 1] == low_half(test)
}

// The exclusive or of the bytes that it counts.
pub fn test_byte(counted: &[u8]) -> u8
    ensures { result ≡ test_byte counted.now }
{
    counted.iter().fold(0, |test, b| test ^ b)
}

pub fn high_half(test: u8) -> u8
    ensures { result ≡ high_test test }
{
    HALF + test / 16
}

pub fn low_half(test: u8) -> u8
    ensures { result ≡ low_test test }
{
    HALF + test % 16
}
