// The frames of a text in lent memory.
ghost use Rattle.std.specs.Prelude.{◌≡◌, true, ◌+◌, ◌-◌, ◌<◌, ◌≤◌, length, get_or, take};
ghost use Rattle.memory.specs.Parts.{splice};
ghost use Rattle.digits.specs.Number.{most_number};
ghost use Rattle.frame.specs.Shape.{around_text};
ghost use Rattle.framing.specs.Writing.{frame_of};
ghost use Rattle.records.specs.Records.{ends_with_cr};
ghost use Rattle.pieces.specs.Pieces.{end_after};
ghost use Rattle.cutting.specs.Frames.{cut_of};

// The frame of the first n bytes, at `done`.
fn write_piece(number: u8, text: &[u8], n: usize, out: &mut [u8], done: usize)
    requires { (1 ≤ n) × (n ≤ length text.now) × (number ≤ most_number) × (done + (n + around_text) ≤ length out.old) }
    ensures { out.new ≡ splice out.old done (frame_of number (end_after (get_or text.now (n - 1) 0)) (take n text.now)) }
{
    let end = pieces::end_after(text[n - 1]);
    framing::put_frame(number, end, &text[..n], &mut out[done..]).unwrap();
}

// All frames of a text, over the start of out.
pub fn write_all(limit: usize, text: &[u8], out: &mut [u8])
    requires { (around_text < limit) × (length (cut_of limit text.now) ≤ length out.old) × (ends_with_cr text.now ≡ true) }
    ensures { out.new ≡ splice out.old 0 (cut_of limit text.now) }
{
    let mut at: usize = 0;
    let mut done: usize = 0;
    let mut number: u8 = digits::FIRST_NUMBER;
    // A turn takes one piece: its step is that piece's length.
    while at < text.len() {
        let tail = &text[at..];
        let n = crate::measuring::piece_length(limit, tail);
        write_piece(number, tail, n, out, done);
        done = done + (n + frame::AROUND_TEXT);
        at = at + n;
        number = digits::next_number(number);
    }
}
