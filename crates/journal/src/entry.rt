// One entry written, and one taken out.
ghost use Rattle.std.specs.Prelude.{◌≡◌, ◌+◌, ◌<◌, ◌≤◌, length, slice_index};
ghost use Rattle.memory.specs.Sizes.{lines, message_limit, journal_size};
ghost use Rattle.header.specs.Header.{entry_size};
ghost use Rattle.journal.specs.Inner.Storage.{Ready, written, Appended};
ghost use Rattle.journal.specs.Storage.{grown_by};
ghost use Rattle.journal.specs.Inner.Removal.{Stands, TakenOut, TakenAt};
ghost use Rattle.journal.specs.Removal.{shrunk_by};

// Writes the entry behind the bytes in use.
pub fn append(ledger: crate::Ledger, line: usize, text: &[u8], journal: &mut [u8]) -> crate::Ledger
    requires { Ready ledger line text.now journal.old }
    ensures { Appended ledger line text.now journal.old result journal.new }
{
    let serials = ledger.serials;
    write(line, serials[line], ledger.in_use, text, journal);
    grow(ledger, line, header::entry_size(text.len() as u32))
}

// An entry with its header, at `at`.
fn write(line: usize, serial: u16, at: usize, text: &[u8], journal: &mut [u8])
    requires { (line < lines) × (length text.now ≤ message_limit) × (length journal.old ≡ journal_size) × (at + entry_size (length text.now) ≤ length journal.old) }
    ensures { journal.new ≡ written line serial at text.now journal.old }
{
    let count = text.len() as u32;
    let head = header::head_size(count);
    packed::write_field(journal, at, head, header::number(line as u8, count, serial));
    memory::copy_at(journal, at + head, text);
}

// The ledger with an entry of this size more on the line.
fn grow(ledger: crate::Ledger, line: usize, size: usize) -> crate::Ledger
    requires { (line < lines) × (ledger.in_use + size ≤ journal_size) × (slice_index ledger.used line ≤ ledger.in_use) }
    ensures { result ≡ grown_by ledger line size }
{
    let mut grown = ledger;
    grown.in_use += size;
    grown.used[line] += size as u32;
    grown.serials[line] = grown.serials[line].wrapping_add(1);
    grown
}

// Takes out the entry that stands at `at`, if its text fits into the buffer.
pub fn take_at(
    ledger: crate::Ledger,
    line: usize,
    at: usize,
    journal: &mut [u8],
    buffer: &mut [u8],
) -> crate::Taking
    requires { Stands ledger line at journal.old }
    ensures { TakenAt ledger line at journal.old buffer.old result journal.new buffer.new }
{
    let in_use = ledger.in_use;
    let h = header::entry_at(&journal[at..in_use]).unwrap();
    let count = h.count;
    if buffer.len() < count {
        return crate::Taking {
            ledger,
            answer: Err(crate::NotTaken::BufferShort),
        };
    }
    take_out(at, count, in_use, journal, buffer);
    crate::Taking {
        ledger: shrink(ledger, line, header::entry_size(count as u32)),
        answer: Ok((count, h.serial)),
    }
}

// The text of the entry at `at` goes to the buffer, and what stands behind the entry closes up.
fn take_out(at: usize, count: usize, in_use: usize, journal: &mut [u8], buffer: &mut [u8])
    requires { (count ≤ message_limit) × (at + entry_size count ≤ in_use) × (in_use ≤ length journal.old) }
    ensures { TakenOut at count in_use journal.old buffer.old journal.new buffer.new }
{
    let head = header::head_size(count as u32);
    let start = at + head;
    let end = start + count;
    memory::copy(buffer, &journal[start..end]);
    memory::close_up(journal, at, head + count, in_use); // the header goes with its text
}

// The ledger with an entry of this size less on the line.
fn shrink(ledger: crate::Ledger, line: usize, size: usize) -> crate::Ledger
    requires { (line < lines) × (size ≤ journal_size) × (size ≤ ledger.in_use) × (size ≤ slice_index ledger.used line) }
    ensures { result ≡ shrunk_by ledger line size }
{
    let mut shrunk = ledger;
    shrunk.in_use -= size;
    shrunk.used[line] -= size as u32;
    shrunk
}
