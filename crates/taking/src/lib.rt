// What a taking from the journal is answered: the one place where what was taken, or why not, becomes an `Answer`.
#![tactic(auto)]

ghost use Rattle.std.specs.Prelude.{◌≡◌};
ghost use Rattle.taking.specs.Taking.{took_answer};

use answers::Answer;
use journal::NotTaken;

// The answer to a taking.
pub fn answer_to(took: Result<(usize, u16), NotTaken>) -> Answer
    ensures { result ≡ took_answer took }
{
    match took {
        Ok((n, serial)) => Answer::Taken(n, serial),
        Err(NotTaken::NothingWaiting) => Answer::NothingWaiting,
        Err(NotTaken::BufferShort) => Answer::BufferShort,
        Err(NotTaken::Broken) => Answer::Broken,
        Err(NotTaken::NoLine) => Answer::NoLine,
        Err(NotTaken::WrongSize) => Answer::WrongSize,
    }
}
