// The journal: the entries of eight lines in one lent area, with a guaranteed share for each line.
// Every public function is total: what it cannot do it answers, and then it changes nothing.
#![tactic(auto)]

ghost use Rattle.std.specs.Prelude.{◌≡◌};
ghost use Rattle.journal.specs.Chain.{fresh_ledger};
ghost use Rattle.journal.specs.Verdicts.{judge_of};
ghost use Rattle.journal.specs.Storage.{Stored};
ghost use Rattle.journal.specs.Removal.{TakenFrom};

mod chain;
mod entry;

// What is known of the journal's bytes: how many are in use, and each line's used count and next serial.
#[derive(Clone, Copy)]
pub struct Ledger {
    pub in_use: usize,
    pub used: [u32; 8],
    pub serials: [u16; 8],
}

impl Ledger {
    pub fn fresh() -> Ledger
        ensures { result ≡ fresh_ledger }
    {
        Ledger {
            in_use: 0,
            used: [0u32; 8],
            serials: [0u16; 8],
        }
    }
}

// Why a text is not stored: 31, 40, 41, 43 and 46.
#[derive(Clone, Copy)]
pub enum Refusal {
    NoRoom,
    Broken,
    NoLine,
    WrongSize,
    Malformed,
}

// Why nothing is taken: 40, 41, 43, 44 and 45.
#[derive(Clone, Copy)]
pub enum NotTaken {
    NothingWaiting,
    BufferShort,
    Broken,
    NoLine,
    WrongSize,
}

// The ledger stands beside the answer, and not in its Ok: `Stored` and `TakenFrom`, of which journal_laws speaks, say what it is after a
// refusal too.
#[derive(Clone, Copy)]
pub struct Storing {
    pub ledger: Ledger,
    pub answer: Result<(), Refusal>,
}

#[derive(Clone, Copy)]
pub struct Taking {
    pub ledger: Ledger,
    pub answer: Result<(usize, u16), NotTaken>,
}

// Whether a text of `length` bytes may be stored on the line, and if not, why.
pub fn judge(
    ledger: Ledger,
    shares: [u16; 8],
    line: u8,
    length: usize,
    journal: &[u8],
) -> Result<(), Refusal>
    ensures { result ≡ judge_of ledger shares line length journal.now }
{
    let l = line as usize;
    if memory::LINES <= l {
        return Err(Refusal::NoLine);
    }
    if journal.len() != memory::JOURNAL_SIZE {
        return Err(Refusal::WrongSize);
    }
    if length < 1 {
        return Err(Refusal::Malformed);
    }
    if memory::MESSAGE_LIMIT < length {
        return Err(Refusal::Malformed);
    }
    if chain::look(ledger, l, journal).is_none() {
        return Err(Refusal::Broken);
    }
    let mut used = ledger.used;
    used[l] += header::entry_size(length as u32) as u32;
    if !room::has_room(used, shares) {
        return Err(Refusal::NoRoom);
    }
    Ok(())
}

// Stores a text as the line's newest entry, if the verdict is that it fits.
pub fn store(ledger: Ledger, shares: [u16; 8], line: u8, text: &[u8], journal: &mut [u8]) -> Storing
    ensures { Stored ledger shares line text.now journal.old result journal.new }
{
    let verdict = judge(ledger, shares, line, text.len(), journal);
    if verdict.is_err() {
        return Storing {
            ledger,
            answer: verdict,
        };
    }
    let after = entry::append(ledger, line as usize, text, journal);
    Storing {
        ledger: after,
        answer: verdict,
    }
}

// Takes the line's oldest entry: its text goes to the start of the buffer, and later entries close up.
pub fn take(ledger: Ledger, line: u8, journal: &mut [u8], buffer: &mut [u8]) -> Taking
    ensures { TakenFrom ledger line journal.old buffer.old result journal.new buffer.new }
{
    let l = line as usize;
    if memory::LINES <= l {
        return Taking {
            ledger,
            answer: Err(NotTaken::NoLine),
        };
    }
    if journal.len() != memory::JOURNAL_SIZE {
        return Taking {
            ledger,
            answer: Err(NotTaken::WrongSize),
        };
    }
    let Some(at) = chain::look(ledger, l, journal) else {
        return Taking {
            ledger,
            answer: Err(NotTaken::Broken),
        };
    };
    if at == ledger.in_use {
        return Taking {
            ledger,
            answer: Err(NotTaken::NothingWaiting),
        };
    }
    entry::take_at(ledger, l, at, journal, buffer)
}
