// One walk over the journal's entries, from header to header.
ghost use Rattle.std.specs.Prelude.{◌≡◌, ◌<◌, ◌≤◌, length};
ghost use Rattle.memory.specs.Sizes.{lines, journal_size};
ghost use Rattle.journal.specs.Inner.Walks.{Walked, Seen};

// Of a whole chain of entries: the room of each line's entries, and where a line's oldest entry stands.
#[derive(Clone, Copy)]
struct Sums {
    sums: [u32; 8],
    oldest: usize,
}

// Walks the entries that s is made of, if it is a whole chain. While none of the line's is passed, its oldest is taken to stand behind those that are.
fn walk(s: &[u8], line: usize) -> Option<Sums>
    requires { (length s.now ≤ journal_size) × (line < lines) }
    ensures { Walked s.now line result }
{
    let mut sums = [0u32; 8];
    let mut oldest = 0;
    let mut at = 0;
    // Each entry's size stands in its header, so no range or iterator steps from one to the next.
    while header::LEAST_HEAD <= s.len() - at {
        let h = header::entry_at(&s[at..])?;
        let owner = h.line;
        let size = header::entry_size(h.count as u32);
        sums[owner] += size as u32;
        at += size;
        if sums[line] == 0 {
            oldest = at;
        }
    }
    if at != s.len() {
        return None;
    }
    Some(Sums { sums, oldest })
}

// Where the line's oldest entry stands, or the end in use where it has none; nothing where the journal is not what the ledger says of it.
pub fn look(ledger: crate::Ledger, line: usize, journal: &[u8]) -> Option<usize>
    requires { (length journal.now ≡ journal_size) × (line < lines) }
    ensures { Seen ledger line journal.now result }
{
    let in_use = ledger.in_use;
    if journal.len() < in_use {
        return None;
    }
    let walked = walk(&journal[..in_use], line)?;
    if ledger.used != walked.sums {
        return None;
    }
    Some(walked.oldest)
}
