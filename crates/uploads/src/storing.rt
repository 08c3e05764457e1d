// A finding, made in a scratch and stored: the storing judges and stores in one, so nothing is written before its answer is known.
ghost use Rattle.std.specs.Prelude.{◌≡◌, length};
ghost use Rattle.room.specs.Room.{todays_shares};
ghost use Rattle.settings.specs.Settings.{results_length};
ghost use Rattle.journal.specs.Storage.{Stored};
ghost use Rattle.finding.specs.Findings.{finding_limit, finding_of};

use finding::FINDING_LIMIT;
use journal::{Ledger, Storing};
use settings::Patient;

// Stores the finding of a block with results.
pub fn store(
    patient: Patient,
    ledger: Ledger,
    line: u8,
    block: &[u8],
    journal: &mut [u8],
) -> Storing
    requires { length block.now ≡ results_length patient }
    ensures { Stored ledger todays_shares line (finding_of patient block.now) journal.old result journal.new }
{
    let mut place = [0u8; FINDING_LIMIT];
    in_place(&mut place, patient, ledger, line, block, journal)
}

fn in_place(
    place: &mut [u8],
    patient: Patient,
    ledger: Ledger,
    line: u8,
    block: &[u8],
    journal: &mut [u8],
) -> Storing
    requires { (length place.old ≡ finding_limit) × (length block.now ≡ results_length patient) }
    ensures { Stored ledger todays_shares line (finding_of patient block.now) journal.old result journal.new }
{
    let n = finding::put_finding(patient, block, place).unwrap();
    journal::store(ledger, room::shares(), line, &place[..n], journal)
}
