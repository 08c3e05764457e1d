// How the blocks of a strip reader are laid out: a template for each, with a mark for a byte of data and one for a test byte, which are
// no bytes that stand fixed in a block.
ghost use Rattle.std.specs.Prelude.{◌≡◌, false};
ghost use Rattle.block.specs.Places.{fits, matches};
ghost use Rattle.block.specs.Layouts.{control_block, results_block, colours_block};
ghost use Rattle.block.specs.Inner.Template.{is_mark, place_of, places_of_template};

use characters::{CR, ETX, STX};
use settings::Patient;

const DATUM: u8 = b'.';

const TEST: u8 = b'#';

// Blocks with results, for the two lengths of a patient number.
const RESULTS_10: [u8; 236] = *b"\
    \x02;E .......... ..... ........ ..... \
    SG.....      \
    PH...      \
    LEU................ \
    NIT........ \
    PRO................ \
    GLU................ \
    KET................ \
    UBG................ \
    BIL................ \
    ERY................ \
    NAG                 \
    \x03##\r\
";

const RESULTS_13: [u8; 239] = *b"\
    \x02;E ............. ..... ........ ..... \
    SG.....      \
    PH...      \
    LEU................ \
    NIT........ \
    PRO................ \
    GLU................ \
    KET................ \
    UBG................ \
    BIL................ \
    ERY................ \
    NAG                 \
    \x03##\r\
";

// Blocks with colour and turbidity.
const COLOURS_10: [u8; 78] = *b"\
    \x02;D .......... ..... ........ ..... \
    .................. \
    .................. \
    \x03##\r\
";

const COLOURS_13: [u8; 81] = *b"\
    \x02;D ............. ..... ........ ..... \
    .................. \
    .................. \
    \x03##\r\
";

// Whether the block is a control block with this code, but for its test bytes.
pub fn is_control(code: u8, block: &[u8]) -> bool
    requires { is_mark code ≡ false }
    ensures { result ≡ matches (control_block code) block.now }
{
    let template = [STX, code, ETX, TEST, TEST, CR];
    is_laid_out(&template, block)
}

// The same of a block with results.
pub fn is_results(patient: Patient, block: &[u8]) -> bool
    ensures { result ≡ matches (results_block patient) block.now }
{
    match patient {
        Patient::Ten => is_laid_out(&RESULTS_10, block),
        Patient::Thirteen => is_laid_out(&RESULTS_13, block),
    }
}

// And of one with colour and turbidity.
pub fn is_colours(patient: Patient, block: &[u8]) -> bool
    ensures { result ≡ matches (colours_block patient) block.now }
{
    match patient {
        Patient::Ten => is_laid_out(&COLOURS_10, block),
        Patient::Thirteen => is_laid_out(&COLOURS_13, block),
    }
}

// Whether a block is as long as a template, and each byte may stand at its mark.
fn is_laid_out(template: &[u8], block: &[u8]) -> bool
    ensures { result ≡ matches (places_of_template template.now) block.now }
{
    template.len() == block.len()
        && template
            .iter()
            .zip(block)
            .all(|(&mark, &b)| may_stand(mark, b))
}

// Whether b may stand where a template has the mark: from ' ' to '}' for a byte of data; the test bytes are tested apart.
#[tactic(auto, unfolding(crate::specs::Inner::Template::place_of))]
fn may_stand(mark: u8, b: u8) -> bool
    ensures { result ≡ fits (place_of mark) b }
{
    match mark {
        TEST => true,
        DATUM => matches!(b, b' '..=b'}'),
        _ => b == mark,
    }
}
