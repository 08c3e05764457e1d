// Reading a message: each record with its type, offset, length and owner.
#![tactic(auto)]

ghost use Rattle.std.specs.Prelude.{◌≡◌};
ghost use Rattle.faults.specs.Faults.{fault_of};
ghost use Rattle.owner.specs.Reading.{room_for, ReadAs};

use faults::Refusal;

mod rows; // rows.rt: types, offsets and lengths
mod runs; // runs.rt: owners, by the runs of records that they own

// Four memories of these lengths have n places each.
fn has_room(n: usize, types: usize, offsets: usize, lengths: usize, owners: usize) -> bool
    ensures { result ≡ room_for n types offsets lengths owners }
{
    if types < n {
        return false;
    }
    if offsets < n {
        return false;
    }
    if lengths < n {
        return false;
    }
    n <= owners
}

// Reads a message: of each record its letter, where it starts, how long it is before its CR, and the number of its owner, from 1, or 0.
pub fn read(
    text: &[u8],
    types: &mut [u8],
    offsets: &mut [u16],
    lengths: &mut [u16],
    owners: &mut [u16],
) -> Result<usize, Refusal>
    ensures { ReadAs text.now types.old offsets.old lengths.old owners.old types.new offsets.new lengths.new owners.new result }
{
    if !message::is_message(text) {
        return Err(faults::refuse(text));
    }
    let n = records::count_records(text);
    if !has_room(n, types.len(), offsets.len(), lengths.len(), owners.len()) {
        return Err(Refusal::NotFitting);
    }
    rows::fill_rows(text, types, offsets, lengths);
    runs::fill_owners(&types[..n], owners);
    Ok(n)
}
