// The check of a text: whether it is a message, or the first fault of one that is not and the place of its record.
#![tactic(auto)]

ghost use Rattle.std.specs.Prelude.{◌≡◌};
ghost use Rattle.faults.specs.Faults.{fault_of};
ghost use Rattle.faults.specs.Refusals.{refused_as};

use answers::Fault;

mod judging; // judging.rt: one record
mod walk; // walk.rt: the records of a text, up to the first that is wrong

// Why a text is no message: it is no text at all, since it is too long or has a byte that is not allowed; or its first fault and the
// place of that record, counted from 1.
#[derive(Clone, Copy)]
pub enum Flaw {
    NotText,
    Faulty(Fault, u16),
}

// Why a text is neither cut nor read: it is no text, or a frame has no room for text; the memory is too short; or its first fault.
#[derive(Clone, Copy)]
pub enum Refusal {
    Malformed,
    NotFitting,
    Faulty(Fault, u16),
}

// Why a text is neither cut nor read, asked only of one that is no message: whoever cuts or reads a message does not wait for it.
pub fn refuse(text: &[u8]) -> Refusal
    ensures { result ≡ refused_as (fault_of text.now) }
{
    match check(text) {
        Ok(()) => Refusal::Malformed,
        Err(Flaw::NotText) => Refusal::Malformed,
        Err(Flaw::Faulty(fault, place)) => Refusal::Faulty(fault, place),
    }
}

// Whether a text is a message, and the first fault of one that is not: its length and bytes, its end, its records, by the delimiters that
// it names.
pub fn check(text: &[u8]) -> Result<(), Flaw>
    ensures { result ≡ fault_of text.now }
{
    let n = text.len();
    if memory::MESSAGE_LIMIT < n {
        return Err(Flaw::NotText);
    }
    if !characters::all_allowed(text) {
        return Err(Flaw::NotText);
    }
    if n == 0 {
        return Err(Flaw::Faulty(Fault::NoHeader, 1));
    }
    if text[n - 1] != characters::CR {
        return Err(Flaw::Faulty(Fault::NoFinalCr, records::count_records(text) as u16));
    }
    walk::records_fault(kinds::delimiters_of(text), text)
}
