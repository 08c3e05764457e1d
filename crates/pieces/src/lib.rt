// The pieces of a text: each record with its CR, cut so that every piece is the text of one frame.
#![tactic(auto)]

ghost use Rattle.std.specs.Prelude.{◌≡◌, min, take};
ghost use Rattle.pieces.specs.Pieces.{piece_size, through_cr, end_after};

use frame::End;

// The length of a text's first piece: through its first CR, or as many bytes as a frame within the limit holds.
pub fn first_piece(limit: usize, text: &[u8]) -> usize
    ensures { result ≡ through_cr (take (piece_size limit) text.now) }
{
    let most = most_within(limit, text.len());
    let n = records::index_of(&text[..most], characters::CR);
    if n == most {
        return n;
    }
    n + 1
}

// How many of so many bytes a frame within the limit holds.
fn most_within(limit: usize, bytes: usize) -> usize
    ensures { result ≡ min (piece_size limit) bytes }
{
    if limit <= frame::AROUND_TEXT {
        return 0;
    }
    if limit - frame::AROUND_TEXT < bytes {
        return limit - frame::AROUND_TEXT;
    }
    bytes
}

// What ends a piece whose last byte is b: a record ends with CR.
#[tactic(auto, using(memory::proofs::Branches::branches))]
pub fn end_after(b: u8) -> End
    ensures { result ≡ end_after b }
{
    if b == characters::CR {
        return End::Etx;
    }
    End::Etb
}
