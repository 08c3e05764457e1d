// The last record of a text that lies in two pieces, the second of which has the text's last byte.
ghost use Rattle.std.specs.Prelude.{◌≡◌, ◌++◌, ◌-◌, ◌<◌, length, get_or};
ghost use Rattle.characters.specs.Control.{cr};
ghost use Rattle.records.specs.Records.{ends_with_l, ending_of};
ghost use Rattle.records.specs.Inner.Starts.{last_start};

use super::Ending;
use characters::CR;

// Where the bytes behind the last CR start: 0 where there is no CR.
fn last_start(text: &[u8]) -> usize
    ensures { result ≡ last_start text.now }
{
    for i in (0..text.len()).rev() {
        if text[i] == CR {
            return i + 1;
        }
    }
    0
}

// Whether the last record begins with L. It begins behind a CR of the second piece, in the first piece, or where the second begins; an
// empty one has its own CR there.
fn begins_with_l(old: &[u8], new: &[u8]) -> bool
    requires { (0 < length new.now) × (get_or new.now (length new.now - 1) 0 ≡ cr) }
    ensures { result ≡ ends_with_l (old.now ++ new.now) }
{
    let last = new.len() - 1;
    let start = last_start(&new[..last]);
    if 0 < start {
        return new[start] == b'L';
    }
    let begin = last_start(old);
    if begin < old.len() {
        return old[begin] == b'L';
    }
    new[0] == b'L'
}

// How the text ends. Its final CR is tested here and nowhere else.
pub fn ending_in(old: &[u8], new: &[u8]) -> Ending
    requires { 0 < length new.now }
    ensures { result ≡ ending_of (old.now ++ new.now) }
{
    if new[new.len() - 1] != CR {
        return Ending::WithoutCr;
    }
    if begins_with_l(old, new) {
        return Ending::WithL;
    }
    Ending::WithOther
}
