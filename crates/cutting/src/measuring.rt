// Where the pieces of a text end, and how long their frames are.
ghost use Rattle.std.specs.Prelude.{◌≡◌, true, ◌+◌, ◌*◌, ◌<◌, ◌≤◌, length, take};
ghost use Rattle.memory.specs.Sizes.{message_limit};
ghost use Rattle.frame.specs.Shape.{around_text};
ghost use Rattle.records.specs.Records.{ends_with_cr};
ghost use Rattle.pieces.specs.Pieces.{piece_size, pieces_of, through_cr};

// The length of a text's first piece, as `pieces::first_piece` gives it, but without its tests. The text ends with CR, so the scan for one needs no test for the text's end.
pub fn piece_length(limit: usize, text: &[u8]) -> usize
    requires { (around_text < limit) × (ends_with_cr text.now ≡ true) }
    ensures { result ≡ through_cr (take (piece_size limit) text.now) }
{
    let size = limit - frame::AROUND_TEXT;
    for n in 0..size {
        if text[n] == characters::CR {
            return n + 1;
        }
    }
    size
}

// The length of all frames of a text, with nothing written.
pub fn measure(limit: usize, text: &[u8]) -> usize
    requires { (around_text < limit) × (length text.now ≤ message_limit) × (ends_with_cr text.now ≡ true) }
    ensures { result ≡ length text.now + around_text * length (pieces_of limit text.now) }
{
    let mut at: usize = 0;
    let mut total: usize = 0;
    // A turn takes one piece: its step is that piece's length.
    while at < text.len() {
        let n = piece_length(limit, &text[at..]);
        total = total + (n + frame::AROUND_TEXT);
        at = at + n;
    }
    total
}
