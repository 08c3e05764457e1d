// Field text with escapes and without.
#![tactic(auto)]

ghost use Rattle.escaping.specs.Escape.{Escaping};
ghost use Rattle.escaping.specs.Unescape.{Unescaping};

use kinds::Delimiters;

mod with_escapes; // with_escapes.rt: delimiters into escapes
mod without_escapes; // without_escapes.rt: escapes into delimiters

// The letters of the escapes, one for each delimiter.
const FIELD_LETTER: u8 = b'F';

const COMPONENT_LETTER: u8 = b'S';

const REPEAT_LETTER: u8 = b'R';

const ESCAPE_LETTER: u8 = b'E';

// Why a text is not escaped or unescaped: it has a wrong escape; the memory is too short; the four that were handed over are not allowed.
#[derive(Clone, Copy)]
pub enum Refusal {
    Malformed,
    NotFitting,
    BadDelimiters,
}

// Escapes a text, and gives the length: with the delimiters | \ ^ & the bytes | ^ \ & become &F& &S& &R& &E&.
pub fn escape(d: Delimiters, text: &[u8], out: &mut [u8]) -> Result<usize, Refusal>
    ensures { Escaping d text.now out.old result out.new }
{
    if !kinds::are_delimiters(d) {
        return Err(Refusal::BadDelimiters); // 55 before 47
    }
    let letters = with_escapes::letters_for(d);
    if !with_escapes::fits(&letters, text, out.len()) {
        return Err(Refusal::NotFitting);
    }
    let n = with_escapes::write(d, &letters, text, out);
    Ok(n)
}

// Takes the escapes out of a component, and gives the length.
pub fn unescape(d: Delimiters, text: &[u8], out: &mut [u8]) -> Result<usize, Refusal>
    ensures { Unescaping d text.now out.old result out.new }
{
    if !kinds::are_delimiters(d) {
        return Err(Refusal::BadDelimiters); // 55 before 46 and 47
    }
    let letters = with_escapes::letters_for(d);
    let n = without_escapes::measure(d, &letters, text).ok_or(Refusal::Malformed)?;
    if out.len() < n {
        return Err(Refusal::NotFitting);
    }
    without_escapes::write(d, text, n, out);
    Ok(n)
}
