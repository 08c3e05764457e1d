// A strip reader's line: what a byte does there, and what a whole block comes to before the journal is asked.
#![tactic(auto)]

ghost use Rattle.std.specs.Prelude.{◌≡◌, ◌||◌};
ghost use Rattle.memory.specs.Tests.{is};
ghost use Rattle.characters.specs.Control.{stx};
ghost use Rattle.strips.specs.Readers.{fresh_reader};
ghost use Rattle.strips.specs.Replies.{replied_of, reply_number};
ghost use Rattle.strips.specs.Sights.{is_inside, sight_of};
ghost use Rattle.block.specs.declared.Judged.TheVariants.{Results};
ghost use Rattle.strips.specs.Hearings.{replied_with, marked_with, reply_answer, filed_reader, hears, hearing_of};

use answers::Answer;
use block::Judged;
use characters::{CR, STX};
use line::{Line, State};
use settings::Patient;

// Our reply to a reader, with its number: that it may send more, or that it is to send again.
#[derive(Clone, Copy)]
pub enum Reply {
    More = 1,
    Again = 2,
}

// What is kept of a reader beside its line's record: our last reply, whether it asked or wanted that reply again since its last stored
// block, and whether there is such a block.
#[derive(Clone, Copy)]
pub struct Reader {
    pub reply: Option<Reply>,
    pub since: bool,
    pub kept: bool,
}

// What a byte does: it is ignored, added to the block, or ends the block, which is judged.
#[derive(Clone, Copy)]
pub enum Sight {
    Ignores,
    Adds,
    Judges,
}

// What a whole block comes to: the answer and what is kept of the reader then; and whether its finding is to be stored first.
#[derive(Clone, Copy)]
pub struct Hearing {
    pub answer: Answer,
    pub reader: Reader,
    pub stores: bool,
}

impl Reader {
    pub fn fresh() -> Reader
        ensures { result ≡ fresh_reader }
    {
        Reader {
            reply: None,
            since: false,
            kept: false,
        }
    }
}

// Our last reply by its number, and its number.
pub fn replied_of(n: u16) -> Option<Reply>
    ensures { result ≡ replied_of n }
{
    match n {
        0 => None,
        1 => Some(Reply::More),
        _ => Some(Reply::Again),
    }
}

pub fn reply_number(reply: Option<Reply>) -> u16
    ensures { result ≡ reply_number reply }
{
    reply.map_or(0, |reply| reply as u16)
}

// A byte on a reader's line: between blocks all but STX is ignored.
#[tactic(auto, unfolding(crate::specs::Sights::sight_of))]
pub fn see(patient: Patient, line: Line, byte: u8) -> Sight
    ensures { result ≡ sight_of patient line byte }
{
    if !takes(line.state, byte) {
        return Sight::Ignores;
    }
    if byte == CR || usize::from(line.collected) + 1 == patient.results_length() {
        return Sight::Judges;
    }
    Sight::Adds
}

fn takes(state: State, byte: u8) -> bool
    ensures { result ≡ is_inside state || is stx byte }
{
    matches!(state, State::Inside) || byte == STX
}

// A whole block, by what it is; `again` says that it is the last stored one, repeated.
pub fn hear(judged: Judged, again: bool, reader: Reader) -> Hearing
    ensures { result ≡ hearing_of judged again reader }
{
    match judged {
        Judged::OddLength => heard(Answer::OddLength, replied_with(Some(Reply::Again), reader)),
        Judged::OddTest => heard(Answer::OddTest, replied_with(Some(Reply::Again), reader)),
        Judged::OddByte => heard(Answer::OddByte, replied_with(Some(Reply::Again), reader)),
        Judged::Multiple => heard(
            Answer::Heard,
            replied_with(Some(Reply::More), marked(reader)),
        ),
        Judged::Repeat => heard(reply_answer(reader), marked(reader)),
        Judged::End => heard(Answer::Noted, reader),
        Judged::Colours => heard(Answer::Heard, replied_with(Some(Reply::More), reader)),
        Judged::Results => hear_results(again, reader),
    }
}

// A block with results: repeated it is not stored again.
fn hear_results(again: bool, reader: Reader) -> Hearing
    ensures { result ≡ hearing_of Results again reader }
{
    if again {
        return heard(Answer::Heard, replied_with(Some(Reply::More), reader));
    }
    Hearing {
        answer: Answer::Filed,
        reader: filed(),
        stores: true,
    }
}

fn heard(answer: Answer, reader: Reader) -> Hearing
    ensures { result ≡ hears answer reader }
{
    Hearing {
        answer,
        reader,
        stores: false,
    }
}

fn replied_with(reply: Option<Reply>, reader: Reader) -> Reader
    ensures { result ≡ replied_with reply reader }
{
    Reader { reply, ..reader }
}

fn marked(reader: Reader) -> Reader
    ensures { result ≡ marked_with reader }
{
    Reader {
        since: true,
        ..reader
    }
}

// What is kept of a reader whose finding was stored.
pub fn filed() -> Reader
    ensures { result ≡ filed_reader }
{
    Reader {
        reply: Some(Reply::More),
        since: false,
        kept: true,
    }
}

// To its REP the reader gets our last reply, if there is one.
fn reply_answer(reader: Reader) -> Answer
    ensures { result ≡ reply_answer reader.reply }
{
    match reader.reply {
        None => Answer::Noted,
        Some(_) => Answer::Heard,
    }
}
