// The parts of a frame's shape, of the bytes collected before the LF that ends it.
ghost use Rattle.std.specs.Prelude.{◌≡◌, List, [], ◌∷◌, ◌++◌, ◌≤◌, length};
ghost use Rattle.characters.specs.Control.{lf};
ghost use Rattle.frame.specs.Shape.{end_from, is_built, is_checked, inner_of};

use super::{End, Flaw};
use characters::{CR, ETB, ETX};
use digits::MOST_NUMBER;

// CR stands before the LF, and ETB or ETX fifth from the end.
#[tactic(auto, using(crate::proofs::Collected::built_short, crate::proofs::Collected::built_long))]
pub fn is_built(collected: &[u8]) -> bool
    ensures { result ≡ is_built (collected.now ++ (lf ∷ [])) }
{
    let n = collected.len();
    n >= 5 && collected[n - 1] == CR && matches!(collected[n - 4], ETX | ETB)
}

// The two check digits are those of the check.
#[tactic(auto, using(crate::proofs::Collected::checked_long))]
pub fn is_checked(collected: &[u8]) -> bool
    requires { 5 ≤ length collected.now }
    ensures { result ≡ is_checked (collected.now ++ (lf ∷ [])) }
{
    let n = collected.len();
    let counted = n - 3;
    let digits = digits::check_digits(digits::check_sum(&collected[..counted]));
    collected[n - 3] == digits.high && collected[n - 2] == digits.low
}

// The text and the number of a frame that is built and checked.
#[tactic(auto, using(crate::proofs::Collected::inner_lent))]
pub fn inner(collected: &[u8]) -> Result<(u8, End, usize), Flaw>
    requires { 5 ≤ length collected.now }
    ensures { result ≡ inner_of (collected.now ++ (lf ∷ [])) }
{
    let n = collected.len();
    let end = n - 4;
    if !characters::all_allowed(&collected[1..end]) {
        return Err(Flaw::BadText);
    }
    let digit = collected[0];
    if digit < b'0' || b'0' + MOST_NUMBER < digit {
        return Err(Flaw::BadNumber);
    }
    Ok((digit - b'0', end_from(collected[end]), n - 5))
}

fn end_from(b: u8) -> End
    ensures { result ≡ end_from b }
{
    match b {
        ETX => End::Etx,
        _ => End::Etb,
    }
}
