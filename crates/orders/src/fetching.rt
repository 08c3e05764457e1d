// The frame that a line offers, and our last reply to a strip reader.
ghost use Rattle.std.specs.Prelude.{◌≡◌, true, ◌<◌, length};
ghost use Rattle.memory.specs.Sizes.{lines, unfinished_size};
ghost use Rattle.line.specs.Line.{within_limits};
ghost use Rattle.block.specs.Controls.{control_bytes};
ghost use Rattle.strips.specs.Replies.{reply_block};
ghost use Rattle.orders.specs.Calls.{frame_on, made_by_writing, PutOut};

use answers::{Answer, Made};
use framing::Refusal;
use line::Line;
use strips::Reply;

// Of a record within its limits: the text that is sent lies at the start of its line's unfinished part.
pub fn fetch(line: Line, i: usize, unfinished: &[u8], out: &mut [u8]) -> Made
    requires { (i < lines) × (within_limits line ≡ true) × (length unfinished.now ≡ unfinished_size) }
    ensures { PutOut (frame_on line i unfinished.now) out.old result out.new }
{
    let start = i * memory::MESSAGE_LIMIT;
    let end = start + line.joined as usize;
    let written = sending::put_offered(memory::FRAME_LIMIT, line, &unfinished[start..end], out);
    made(written)
}

#[tactic(auto, unfolding(crate::specs::Calls::made_by_writing))]
fn made(written: Result<usize, Refusal>) -> Made
    ensures { result ≡ made_by_writing written }
{
    match written {
        Err(Refusal::Malformed) => answers::refused_with(Answer::Malformed),
        Err(Refusal::NotFitting) => answers::refused_with(Answer::NotFitting),
        Ok(n) => answers::done(n),
    }
}

// Our last reply; nothing where there is none.
pub fn fetch_reply(reply: Option<Reply>, out: &mut [u8]) -> Made
    ensures { PutOut (reply_block reply) out.old result out.new }
{
    match reply {
        None => answers::done(0),
        Some(Reply::More) => put_reply(block::MOR, out),
        Some(Reply::Again) => put_reply(block::REP, out),
    }
}

fn put_reply(code: u8, out: &mut [u8]) -> Made
    ensures { PutOut (control_bytes code) out.old result out.new }
{
    match block::put_control(code, out) {
        Some(n) => answers::done(n),
        None => answers::refused_with(Answer::NotFitting),
    }
}
