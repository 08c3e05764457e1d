// The ledger in plain numbers, as a host keeps it (`layout` says where each stands).
#![tactic(auto)]

ghost use Rattle.std.specs.Prelude.{◌<◌, ◌^◌, ◌≡◌};
ghost use Rattle.memory.specs.Sizes.{lines};
ghost use Rattle.ledger.specs.Ledgers.{used_from, serials_from, LedgerRead, serial_after, counts_after};

use journal::Ledger;
use layout::{COUNTS, FIELDS, NUMBERS, SERIAL};

// The ledger that the numbers stand for.
#[tactic(auto, unfolding(crate::specs::Ledgers::ledger_of))]
pub fn ledger_of(numbers: &[u16; NUMBERS], counts: &[u32; COUNTS]) -> Ledger
    ensures { LedgerRead numbers.now counts.now result }
{
    Ledger {
        in_use: wide(counts[memory::LINES]),
        used: used_of(counts),
        serials: serials_of(numbers),
    }
}

// Puts the serial of a line's next entry.
#[tactic(auto, using(memory::proofs::Branches::branches))]
pub fn put_serial(numbers: &mut [u16; NUMBERS], i: usize, serial: u16)
    ensures { numbers.new ≡ serial_after numbers.old i serial }
{
    if memory::LINES <= i {
        return;
    }
    numbers[i * FIELDS + SERIAL] = serial;
}

// Puts a line's used count, and how many bytes are in use.
#[tactic(auto, using(memory::proofs::Branches::branches))]
pub fn put_used(counts: &mut [u32; COUNTS], i: usize, own: u32, all: u32)
    ensures { counts.new ≡ counts_after counts.old i own all }
{
    if memory::LINES <= i {
        return;
    }
    counts[i] = own;
    counts[memory::LINES] = all;
}

// A cast of its own tells the caller that the number is below 2 to the 32.
fn wide(n: u32) -> usize
    ensures { (result ≡ n) × (result < 2 ^ 32) }
{
    n as usize
}

// Each line's used count, and its serial.
fn used_of(counts: &[u32; COUNTS]) -> [u32; memory::LINES]
    ensures { result ≡ used_from counts.now 0 lines }
{
    [
        counts[0], counts[1], counts[2], counts[3], counts[4], counts[5], counts[6], counts[7],
    ]
}

fn serials_of(numbers: &[u16; NUMBERS]) -> [u16; memory::LINES]
    ensures { result ≡ serials_from numbers.now 0 lines }
{
    [
        numbers[0 * FIELDS + SERIAL],
        numbers[1 * FIELDS + SERIAL],
        numbers[2 * FIELDS + SERIAL],
        numbers[3 * FIELDS + SERIAL],
        numbers[4 * FIELDS + SERIAL],
        numbers[5 * FIELDS + SERIAL],
        numbers[6 * FIELDS + SERIAL],
        numbers[7 * FIELDS + SERIAL],
    ]
}
