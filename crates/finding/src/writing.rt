// A finding in lent memory.
ghost use Rattle.std.specs.Prelude.{◌≡◌, ◌+◌, ◌≤◌, ◌<◌, length, get_or};
ghost use Rattle.memory.specs.Parts.{splice};
ghost use Rattle.settings.specs.Settings.{results_length};
ghost use Rattle.finding.specs.Findings.{finding_limit, finding_of};
ghost use Rattle.finding.specs.Inner.Templates.{template, template_length, spots_of, no_spot, spot_count, saying};

use crate::Spot;
use kinds::Delimiters;
use settings::Patient;

// What stands in the template for a datum.
const MARK: u8 = b'.';

const TEMPLATE_LENGTH: usize = 132;

// Every finding, with a mark for each datum.
const TEMPLATE: [u8; TEMPLATE_LENGTH] = *b"\
    H|\\^&\r\
    P|1|.\r\
    O|1|.\r\
    R|1|SG|.\r\
    R|2|PH|.\r\
    R|3|LEU|.\r\
    R|4|NIT|.\r\
    R|5|PRO|.\r\
    R|6|GLU|.\r\
    R|7|KET|.\r\
    R|8|UBG|.\r\
    R|9|BIL|.\r\
    R|10|ERY|.\r\
    R|11|NAG|.\r\
    L|1\r\
";

// Where the data stand in a block with a patient number of 10, and of 13.
const OF_TEN: [Spot; 13] = [
    Spot { at: 4, width: 10 },
    Spot { at: 15, width: 5 },
    Spot { at: 38, width: 5 },
    Spot { at: 51, width: 3 },
    Spot { at: 63, width: 16 },
    Spot { at: 83, width: 8 },
    Spot { at: 95, width: 16 },
    Spot { at: 115, width: 16 },
    Spot { at: 135, width: 16 },
    Spot { at: 155, width: 16 },
    Spot { at: 175, width: 16 },
    Spot { at: 195, width: 16 },
    Spot { at: 215, width: 0 },
];

const OF_THIRTEEN: [Spot; 13] = [
    Spot { at: 4, width: 13 },
    Spot { at: 18, width: 5 },
    Spot { at: 41, width: 5 },
    Spot { at: 54, width: 3 },
    Spot { at: 66, width: 16 },
    Spot { at: 86, width: 8 },
    Spot { at: 98, width: 16 },
    Spot { at: 118, width: 16 },
    Spot { at: 138, width: 16 },
    Spot { at: 158, width: 16 },
    Spot { at: 178, width: 16 },
    Spot { at: 198, width: 16 },
    Spot { at: 218, width: 0 },
];

// Where a datum stands.
fn spot_of(patient: Patient, k: usize) -> Spot
    requires { k < spot_count }
    ensures { result ≡ get_or (spots_of patient) k no_spot }
{
    match patient {
        Patient::Ten => OF_TEN[k],
        Patient::Thirteen => OF_THIRTEEN[k],
    }
}

// Writes a datum, trimmed and escaped, at `at`, and gives where it ends.
fn put_datum(datum: &[u8], out: &mut [u8], at: usize) -> usize
    requires { at + length (saying datum.now) ≤ length out.old }
    ensures { (result ≡ at + length (saying datum.now)) × (out.new ≡ splice out.old at (saying datum.now)) }
{
    let plain = crate::trimming::trimmed(datum);
    let standard = Delimiters {
        field: b'|',
        repeat: b'\\',
        component: b'^',
        escape: b'&',
    };
    let n = escaping::escape(standard, plain, &mut out[at..]).unwrap_or(0);
    at + n
}

// Writes the template with the data of the block in the places of its marks.
pub fn write(patient: Patient, block: &[u8], out: &mut [u8]) -> usize
    requires { (length block.now ≡ results_length patient) × (finding_limit ≤ length out.old) }
    ensures { (result ≡ length (finding_of patient block.now)) × (out.new ≡ splice out.old 0 (finding_of patient block.now)) }
{
    let mut end: usize = 0;
    let mut k: usize = 0;
    for b in TEMPLATE {
        if b == MARK {
            let spot = spot_of(patient, k);
            let at = spot.at;
            let behind = at + spot.width;
            k += 1;
            end = put_datum(&block[at..behind], out, end);
        } else {
            out[end] = b;
            end = end + 1;
        }
    }
    end
}
