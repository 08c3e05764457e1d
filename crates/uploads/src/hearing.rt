// A whole block heard: what it comes to before the journal is asked. Nothing is written.
ghost use Rattle.std.specs.Prelude.{◌<◌, ◌≡◌};
ghost use Rattle.memory.specs.Sizes.{lines};
ghost use Rattle.block.specs.Judged.{judged_of};
ghost use Rattle.strips.specs.Readers.{is_again};
ghost use Rattle.strips.specs.Hearings.{hearing_of};
ghost use Rattle.keeping.specs.Keeping.{kept_block, memo_of, reader_of};

use layout::NUMBERS;
use settings::Patient;
use strips::{Hearing, Reader};

pub fn hear(patient: Patient, i: usize, block: &[u8], numbers: &[u16; NUMBERS]) -> Hearing
    requires { i < lines }
    ensures { result ≡ hearing_of (judged_of patient block.now) (is_again (memo_of numbers.now i) block.now) (reader_of numbers.now i) }
{
    let reader = keeping::reader_of(numbers, i);
    let again = is_again(reader, i, block, numbers);
    strips::hear(block::judge(patient, block), again, reader)
}

// Whether a block is the last stored one, and the reader asked since.
#[tactic(auto, unfolding(keeping::specs::Keeping::is_kept))]
fn is_again(reader: Reader, i: usize, block: &[u8], numbers: &[u16; NUMBERS]) -> bool
    requires { i < lines }
    ensures { result ≡ is_again (record { reader = reader; block = kept_block numbers.now i }) block.now }
{
    reader.since && reader.kept && keeping::is_kept(numbers, i, block)
}
