// E1381 frames: the shape of a frame that has come.
#![tactic(auto)]

ghost use Rattle.std.specs.Prelude.{◌≡◌, List, [], ◌∷◌, ◌++◌};
ghost use Rattle.frame.specs.Shape.{shape_of};

use characters::LF;

mod judging; // judging.rt: the parts of a frame's shape

// The bytes of a frame that are not text: STX, digit, ETB or ETX, two check digits, CR, LF.
pub const AROUND_TEXT: usize = 7;

// What ends a frame's text: ETB where more of the record follows, ETX at its end.
#[derive(Clone, Copy)]
pub enum End {
    Etb,
    Etx,
}

// Why a frame that has come is refused.
#[derive(Clone, Copy)]
pub enum Flaw {
    Unended,
    Torn,
    WrongCheck,
    BadText,
    BadNumber,
}

// The frame whose bytes behind STX are those collected and the last one, which has just come: its number, its end and the length of its
// text, which starts behind the digit.
#[tactic(auto, using(crate::proofs::Collected::shape_long, crate::proofs::Collected::shape_open, crate::proofs::Collected::shape_ended, crate::proofs::Collected::built_five))]
pub fn shape_of(limit: usize, collected: &[u8], last: u8) -> Result<(u8, End, usize), Flaw>
    ensures { result ≡ shape_of limit (collected.now ++ (last ∷ [])) }
{
    let n = collected.len();
    if limit <= n + 1 || last != LF {
        return Err(Flaw::Unended);
    }
    if !judging::is_built(collected) {
        return Err(Flaw::Torn);
    }
    if !judging::is_checked(collected) {
        return Err(Flaw::WrongCheck);
    }
    judging::inner(collected)
}
