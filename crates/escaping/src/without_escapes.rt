// Escapes into delimiters: first whether they are right and how long the plain text is, then the writing of it.
ghost use Rattle.std.specs.Prelude.{◌≡◌, true, ◌≤◌, length, Some};
ghost use Rattle.std.proofs.lemmas.List.Edits.{sets};
ghost use Rattle.memory.specs.Tests.{is_one_of};
ghost use Rattle.escaping.specs.Letters.{meant};
ghost use Rattle.escaping.specs.Inner.Table.{Lettering};
ghost use Rattle.escaping.specs.Inner.Passes.{letters, measured, plain};

use kinds::Delimiters;

// Whether a byte is the letter of an escape.
fn is_letter(b: u8) -> bool
    ensures { result ≡ is_one_of letters b }
{
    if b == crate::FIELD_LETTER {
        return true;
    }
    if b == crate::COMPONENT_LETTER {
        return true;
    }
    if b == crate::REPEAT_LETTER {
        return true;
    }
    if b == crate::ESCAPE_LETTER {
        return true;
    }
    false
}

// The byte that the letter of an escape stands for.
fn meant(d: Delimiters, letter: u8) -> u8
    requires { is_one_of letters letter ≡ true }
    ensures { meant d letter ≡ Some result }
{
    if letter == crate::FIELD_LETTER {
        return d.field;
    }
    if letter == crate::COMPONENT_LETTER {
        return d.component;
    }
    if letter == crate::REPEAT_LETTER {
        return d.repeat;
    }
    d.escape
}

// The length of the plain text, if the escapes are right.
pub fn measure(d: Delimiters, letters: &[u8; 256], text: &[u8]) -> Option<usize>
    requires { Lettering d letters.now }
    ensures { result ≡ measured d text.now }
{
    // Counted at the escapes alone: each is two bytes longer than what it stands for.
    let mut less: usize = 0;
    let mut i: usize = 0;
    // A turn takes a byte or an escape of three: the step is 1 or 3.
    while i < text.len() {
        let b = text[i];
        if b == d.escape {
            if text.len() - i < 3 {
                return None;
            }
            if !is_letter(text[i + 1]) {
                return None;
            }
            if text[i + 2] != d.escape {
                return None;
            }
            i += 3;
            less += 2;
        } else {
            if crate::with_escapes::letter_of(letters, b) != 0 {
                return None;
            }
            i += 1;
        }
    }
    Some(i - less)
}

// Writes the plain text, of this length: what the measure has found right is not tested again.
pub fn write(d: Delimiters, text: &[u8], n: usize, out: &mut [u8])
    requires { (measured d text.now ≡ Some n) × (n ≤ length out.old) }
    ensures { out.new ≡ sets out.old 0 (plain d text.now) }
{
    // A text as long as its plain text has no escape.
    if n == text.len() {
        memory::copy(out, text);
        return;
    }
    let mut o: usize = 0;
    let mut i: usize = 0;
    // As in `measure`, the step in the text is 1 or 3.
    while o < n {
        let b = text[i];
        if b == d.escape {
            let x = meant(d, text[i + 1]);
            out[o] = x;
            o += 1;
            i += 3;
        } else {
            out[o] = b;
            o += 1;
            i += 1;
        }
    }
}
