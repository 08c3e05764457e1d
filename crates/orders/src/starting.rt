// A start is looked at, and done.
ghost use Rattle.std.specs.Prelude.{◌≡◌, true, ◌<◌, ◌≤◌, length};
ghost use Rattle.memory.specs.Sizes.{lines, message_limit, unfinished_size};
ghost use Rattle.memory.specs.Parts.{splice};
ghost use Rattle.line.specs.Line.{asked_line};
ghost use Rattle.answers.specs.InNumbers.{in_numbers};
ghost use Rattle.answers.specs.declared.Answer.TheVariants.{Sends};
ghost use Rattle.answers.specs.declared.Parcel.TheVariants.{Enquiry};
ghost use Rattle.looking.specs.Views.{text_start};
ghost use Rattle.numbers.specs.Plain.{line_of, with_line};
ghost use Rattle.numbers.specs.Changes.{is_within};
ghost use Rattle.orders.specs.Starts.{can_start, text_look};
ghost use Rattle.orders.specs.Calls.{look_from};

use answers::{Answer, Answered, Parcel};
use faults::Flaw;
use layout::NUMBERS;
use line::{Line, State};

// 40, 41, 42, 60, then the text; of the three memories only their lengths are asked.
pub fn look(
    i: usize,
    text: &[u8],
    numbers: &[u16; NUMBERS],
    journal: usize,
    unfinished: usize,
    frames: usize,
) -> Result<(), Answer>
    ensures { result ≡ look_from numbers.now i text.now journal unfinished frames }
{
    if memory::LINES <= i {
        return Err(Answer::NoLine);
    }
    if !looking::are_right(journal, unfinished, frames) {
        return Err(Answer::WrongSize);
    }
    if !numbers::is_within(numbers, i) {
        return Err(Answer::BeyondLimits);
    }
    let record = numbers::record_of(numbers, i);
    if !can_start(record) {
        return Err(Answer::NotNeutral);
    }
    look_text(faults::check(text))
}

// A text that is no message is not sent.
#[tactic(auto, unfolding(crate::specs::Starts::text_look))]
fn look_text(checked: Result<(), Flaw>) -> Result<(), Answer>
    ensures { result ≡ text_look checked }
{
    match checked {
        Ok(()) => Ok(()),
        Err(Flaw::NotText) => Err(Answer::Malformed),
        Err(Flaw::Faulty(fault, place)) => Err(Answer::Unsendable(fault, place)),
    }
}

// Only a neutral line of frames starts to send.
fn can_start(line: Line) -> bool
    ensures { result ≡ can_start line }
{
    matches!(line.state, State::Neutral) && settings::speaks_frames(line.settings)
}

// The text is copied, and the line's record asks.
pub fn ask(i: usize, text: &[u8], numbers: &mut [u16; NUMBERS], unfinished: &mut [u8]) -> Answered
    requires { (i < lines) × (is_within numbers.old i ≡ true) × (length text.now ≤ message_limit) × (length unfinished.old ≡ unfinished_size) }
    ensures { (result ≡ in_numbers (Sends Enquiry))
        × (numbers.new ≡ with_line numbers.old i (asked_line (line_of numbers.old i) (length text.now)))
        × (unfinished.new ≡ splice unfinished.old (text_start i) text.now) }
{
    let record = numbers::record_of(numbers, i);
    memory::copy_at(unfinished, i * memory::MESSAGE_LIMIT, text);
    numbers::put_record(numbers, i, record.asked(text.len() as u16));
    answers::in_numbers(Answer::Sends(Parcel::Enquiry))
}
