// The frame that a byte ends: its shape, its turn, and the text that the line would have.
ghost use Rattle.std.specs.Prelude.{◌≡◌, ◌++◌, ◌+◌, ◌≤◌};
ghost use Rattle.frame.specs.Shape.{around_collected};
ghost use Rattle.line.specs.Turn.{turn_of};
ghost use Rattle.looking.specs.Views.{frames_of, texts_of, joined_text};
ghost use Rattle.looking.specs.Inner.Ready.{Ready};
ghost use Rattle.looking.specs.Looks.{frame_look, turn_look, end_look};

use super::{Act, Look, done};
use answers::Answer;
use frame::{End, Flaw};
use line::{Line, Turn};
use records::Ending;

// Its shape, then its turn.
pub fn look_frame(line: Line, i: usize, b: u8, unfinished: &[u8], frames: &[u8]) -> Look
    requires { Ready line i unfinished.now frames.now }
    ensures { result ≡ frame_look line b (texts_of i unfinished.now) (frames_of i frames.now) }
{
    let start = i * memory::FRAME_PART;
    let end = start + line.collected as usize;
    match frame::shape_of(memory::FRAME_LIMIT, &frames[start..end], b) {
        Err(Flaw::Unended) => done(Act::Refuse, Answer::Unended),
        Err(Flaw::Torn) => done(Act::Refuse, Answer::Torn),
        Err(Flaw::WrongCheck) => done(Act::Refuse, Answer::WrongCheck),
        Err(Flaw::BadText) => done(Act::Refuse, Answer::BadText),
        Err(Flaw::BadNumber) => done(Act::Refuse, Answer::BadNumber),
        Ok((number, end, n)) => look_turn(line, i, number, end, n, unfinished, frames),
    }
}

// A whole frame: how it stands to the line, then what the line's text would be.
fn look_turn(
    line: Line,
    i: usize,
    number: u8,
    end: End,
    n: usize,
    unfinished: &[u8],
    frames: &[u8],
) -> Look
    requires { Ready line i unfinished.now frames.now × (n + around_collected ≤ line.collected) }
    ensures { result ≡ turn_look (turn_of line number n) end n (joined_text line n (texts_of i unfinished.now) (frames_of i frames.now)) }
{
    match line.in_turn(number, n) {
        Turn::Refused => done(Act::Refuse, Answer::Refusing),
        Turn::Again => done(Act::Refuse, Answer::Repeated),
        Turn::Missed => done(Act::Refuse, Answer::OutOfTurn),
        Turn::Overlong => done(Act::Refuse, Answer::TooLong),
        Turn::InTurn => {
            let text = i * memory::MESSAGE_LIMIT;
            let text_end = text + line.joined as usize;
            let start = i * memory::FRAME_PART + 1;
            let stop = start + n;
            look_end(end, n, &unfinished[text..text_end], &frames[start..stop])
        }
    }
}

// A frame in turn, by its end and the text in its two pieces.
fn look_end(end: End, n: usize, old: &[u8], new: &[u8]) -> Look
    ensures { result ≡ end_look end n (old.now ++ new.now) }
{
    match end {
        End::Etb => done(Act::Accept(n), Answer::Accepted),
        End::Etx => look_text(n, old, new),
    }
}

fn look_text(n: usize, old: &[u8], new: &[u8]) -> Look
    ensures { result ≡ end_look End.Etx n (old.now ++ new.now) }
{
    match records::ending_of(old, new) {
        Ending::WithoutCr => done(Act::Refuse, Answer::NoCr),
        Ending::WithL => Look::Decides(n),
        Ending::WithOther => done(Act::Accept(n), Answer::Accepted),
    }
}
