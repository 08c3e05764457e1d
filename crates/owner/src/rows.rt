// The rows of a message's records: type, offset and length.
ghost use Rattle.std.specs.Prelude.{◌≡◌, ◌<◌, ◌≤◌, length};
ghost use Rattle.std.proofs.lemmas.List.Edits.{sets};
ghost use Rattle.records.specs.Records.{records};
ghost use Rattle.owner.specs.Owners.{types_of};
ghost use Rattle.owner.specs.Reading.{offsets_of, lengths_of};

// Writes each record's type, offset and length.
pub fn fill_rows(text: &[u8], types: &mut [u8], offsets: &mut [u16], lengths: &mut [u16])
    requires room { (length (records text.now) ≤ length types.old) × (length (records text.now) ≤ length offsets.old) × (length (records text.now) ≤ length lengths.old) }
    requires small { length text.now < 65535 }
    ensures { (types.new ≡ sets types.old 0 (types_of (records text.now))) × (offsets.new ≡ sets offsets.old 0 (offsets_of 0 (records text.now))) × (lengths.new ≡ sets lengths.old 0 (lengths_of (records text.now))) }
{
    let mut at: usize = 0;
    let mut n: usize = 0;
    // A turn takes one record: its step is that record's length.
    while at < text.len() {
        let tail = &text[at..];
        let e = records::index_of(tail, characters::CR);
        types[n] = text[at];
        offsets[n] = at as u16;
        lengths[n] = e as u16;
        at = at + (e + 1);
        n += 1;
    }
}
