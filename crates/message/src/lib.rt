// Whether a text is a message, in one walk that asks for no fault and no place.
#![tactic(auto)]

ghost use Rattle.std.specs.Prelude.{◌≡◌};
ghost use Rattle.faults.specs.Message.{is_message};

use characters::CR;

mod whole; // whole.rt: the records behind the header, to the first fault

// Whether a text is a message, by the delimiters that its header names: the walk ends at the first fault, whatever it is.
pub fn is_message(text: &[u8]) -> bool
    ensures { result ≡ is_message text.now }
{
    let n = text.len();
    if n == 0 {
        return false;
    }
    if memory::MESSAGE_LIMIT < n {
        return false;
    }
    if text[n - 1] != CR {
        return false;
    }
    let classes = characters::classes();
    let e = whole::end_of(&classes, text);
    if text[e] != CR {
        return false;
    }
    let header = &text[..e];
    if !kinds::is_header(header) {
        return false;
    }
    let d = kinds::delimiters_of(header);
    if !kinds::are_delimiters(d) {
        return false;
    }
    whole::is_right(d, &classes, &text[e + 1..])
}
