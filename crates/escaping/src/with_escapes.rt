// Delimiters into escapes: first whether the escaped text fits, then the writing of it.
ghost use Rattle.std.specs.Prelude.{◌≡◌, ◌≤◌, leb, length};
ghost use Rattle.std.proofs.lemmas.List.Edits.{sets};
ghost use Rattle.kinds.specs.declared.Delimiters.{Delimiters};
ghost use Rattle.escaping.specs.Letters.{letter_for};
ghost use Rattle.escaping.specs.Escape.{escape_of, escaped};
ghost use Rattle.escaping.specs.Inner.Table.{Lettering};

use kinds::Delimiters;

// The letter of every byte, 0 where the byte stands for itself: a byte is looked up, and not compared with each delimiter.
pub fn letters_for(d: Delimiters) -> [u8; 256]
    ensures { Lettering d result }
{
    let mut letters = [0u8; 256];
    letters[d.escape as usize] = crate::ESCAPE_LETTER;
    letters[d.repeat as usize] = crate::REPEAT_LETTER;
    letters[d.component as usize] = crate::COMPONENT_LETTER;
    letters[d.field as usize] = crate::FIELD_LETTER;
    letters
}

// The letter of a byte.
pub fn letter_of(letters: &[u8; 256], b: u8) -> u8
    ensures { (d : Delimiters) → Lettering d letters.now → result ≡ letter_for d b }
{
    letters[b as usize]
}

// How many bytes stand for a byte.
fn width_of(letters: &[u8; 256], b: u8) -> usize
    ensures { (d : Delimiters) → Lettering d letters.now → result ≡ length (escape_of d b) }
{
    if letter_of(letters, b) == 0 { 1 } else { 3 }
}

// Whether the escaped text fits into `room` bytes.
pub fn fits(letters: &[u8; 256], text: &[u8], room: usize) -> bool
    ensures { (d : Delimiters) → Lettering d letters.now → result ≡ leb (length (escaped d text.now)) room }
{
    let mut left = room;
    for &b in text {
        let w = width_of(letters, b);
        if left < w {
            return false;
        }
        left -= w;
    }
    true
}

// Writes the escaped text, and gives its length.
pub fn write(d: Delimiters, letters: &[u8; 256], text: &[u8], out: &mut [u8]) -> usize
    requires { Lettering d letters.now × (length (escaped d text.now) ≤ length out.old) }
    ensures { (result ≡ length (escaped d text.now)) × (out.new ≡ sets out.old 0 (escaped d text.now)) }
{
    let mut o: usize = 0;
    for &b in text {
        let l = letter_of(letters, b);
        if l == 0 {
            out[o] = b;
            o += 1;
        } else {
            out[o] = d.escape;
            out[o + 1] = l;
            out[o + 2] = d.escape;
            o += 3;
        }
    }
    o
}
