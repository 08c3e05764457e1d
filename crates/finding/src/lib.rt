// The message that a strip reader's block with results becomes: its finding.
#![tactic(auto)]

ghost use Rattle.finding.specs.Findings.{FindingPut};

use settings::Patient;

mod trimming; // trimming.rt: bytes without the spaces at their ends
mod writing; // writing.rt: the finding in lent memory

// The most bytes of a finding.
pub const FINDING_LIMIT: usize = 557;

// Where a datum stands in a block, and how many bytes it has there.
#[derive(Clone, Copy)]
struct Spot {
    at: usize,
    width: usize,
}

// Writes the finding of a block over the start of out, and gives its length, if the block is of the right length and out is long enough for any.
pub fn put_finding(patient: Patient, block: &[u8], out: &mut [u8]) -> Option<usize>
    ensures { FindingPut patient block.now out.old result out.new }
{
    if block.len() != patient.results_length() {
        return None;
    }
    if out.len() < FINDING_LIMIT {
        return None;
    }
    Some(writing::write(patient, block, out))
}
