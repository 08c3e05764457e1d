// A strip reader's blocks: a whole one judged, and the control blocks that we send.
#![tactic(auto)]

ghost use Rattle.std.specs.Prelude.{◌≡◌};
ghost use Rattle.block.specs.Controls.{control_bytes, ControlPut};
ghost use Rattle.block.specs.Judged.{is_length, control_of, data_of, judged_of};

use characters::{CR, ETX, STX};
use settings::Patient;

mod layout; // layout.rt: the templates of the blocks
mod testing; // testing.rt: their test bytes

// The bytes of a control block.
pub const CONTROL_LENGTH: usize = 6;

// The codes of control blocks: a reader asks whether we are ready, or for our last reply again, or ends; we want more.
pub const SPM: u8 = 0x3c;

pub const REP: u8 = 0x3f;

pub const END: u8 = 0x3a;

pub const MOR: u8 = 0x3e;

// A whole block of a strip reader, judged.
#[derive(Clone, Copy)]
pub enum Judged {
    OddLength,
    OddTest,
    OddByte,
    Multiple,
    Repeat,
    End,
    Colours,
    Results,
}

// What a block is: the length is tested first, then the test bytes, then every byte by the layout that its length tells.
#[tactic(auto, unfolding(crate::specs::Judged::judged_of))]
pub fn judge(patient: Patient, block: &[u8]) -> Judged
    ensures { result ≡ judged_of patient block.now }
{
    if !is_length(patient, block.len()) {
        return Judged::OddLength;
    }
    if !testing::is_tested(block) {
        return Judged::OddTest;
    }
    if block.len() == CONTROL_LENGTH {
        return judge_control(block);
    }
    judge_data(patient, block)
}

// Whether a block may have n bytes.
#[tactic(auto, unfolding(crate::specs::Judged::is_length))]
fn is_length(patient: Patient, n: usize) -> bool
    ensures { result ≡ is_length patient n }
{
    n == CONTROL_LENGTH || n == patient.colours_length() || n == patient.results_length()
}

// A block of six bytes, by its code.
#[tactic(auto, unfolding(crate::specs::Judged::control_of))]
fn judge_control(block: &[u8]) -> Judged
    ensures { result ≡ control_of block.now }
{
    if layout::is_control(SPM, block) {
        return Judged::Multiple;
    }
    if layout::is_control(REP, block) {
        return Judged::Repeat;
    }
    if layout::is_control(END, block) {
        return Judged::End;
    }
    Judged::OddByte
}

// A longer one, by its length.
#[tactic(auto, unfolding(crate::specs::Judged::data_of))]
fn judge_data(patient: Patient, block: &[u8]) -> Judged
    ensures { result ≡ data_of patient block.now }
{
    if block.len() == patient.colours_length() {
        if layout::is_colours(patient, block) {
            return Judged::Colours;
        }
        return Judged::OddByte;
    }
    if layout::is_results(patient, block) {
        return Judged::Results;
    }
    Judged::OddByte
}

// Writes the control block with this code over the start of out, if it fits, and gives its length.
pub fn put_control(code: u8, out: &mut [u8]) -> Option<usize>
    ensures { ControlPut code out.old result out.new }
{
    let block = control_block(code);
    memory::copy(out, &block).then_some(CONTROL_LENGTH)
}

// The control block with this code.
#[tactic(auto, unfolding(crate::specs::Controls::control_bytes))]
fn control_block(code: u8) -> [u8; CONTROL_LENGTH]
    ensures { result ≡ control_bytes code }
{
    let counted = [STX, code, ETX];
    let test = testing::test_byte(&counted);
    [
        STX,
        code,
        ETX,
        testing::high_half(test),
        testing::low_half(test),
        CR,
    ]
}
