// What is left after a look and after a decision, row by row.
ghost use Rattle.std.specs.Prelude.{◌≡◌, true, ◌+◌, ◌<◌, length};
ghost use Rattle.memory.specs.Sizes.{lines, frames_size};
ghost use Rattle.line.specs.Line.{within_limits, collected_line, waiting_line};
ghost use Rattle.looking.specs.Inner.Ready.{Ready};
ghost use Rattle.looking.specs.Inner.Fitting.{TextFits, Fitting, Quiet, writes};
ghost use Rattle.looking.specs.declared.Act.TheVariants.{Accept};
ghost use Rattle.receiving.specs.Verdicts.{fate_act};
ghost use Rattle.receiving.specs.Settled.{with_byte, with_text};
ghost use Rattle.receiving.specs.Inner.Settled.{Settled};

use deciding::Fate;
use line::Line;
use looking::{Act, Kind};

// What a look leaves.
pub fn settle(
    line: Line,
    i: usize,
    kind: Kind,
    act: Act,
    unfinished: &mut [u8],
    frames: &mut [u8],
) -> Line
    requires { Fitting act line × Quiet act × (writes act ≡ true → Ready line i unfinished.old frames.old) }
    ensures { Settled act kind line i unfinished.old frames.old result unfinished.new frames.new }
{
    match act {
        Act::Leave => line,
        Act::Open => line.opened(),
        Act::Close => line.closed(),
        Act::Begin => line.begun(),
        Act::Count(n) => line.with_seconds(n),
        Act::Collect => collect(line, i, kind, frames),
        Act::Refuse => refuse(line, i, kind, frames),
        Act::Accept(n) => accept(line, i, kind, n, unfinished, frames),
        Act::Store(_) => line, // no look comes to these two: `close` has their rows
        Act::Object(_) => line,
        Act::Await(n) => line.with_seconds(n),
        Act::Go(sending, number) => line.gone(sending, number),
    }
}

fn collect(line: Line, i: usize, kind: Kind, frames: &mut [u8]) -> Line
    requires { (i < lines) × (within_limits line ≡ true) × (length frames.old ≡ frames_size) }
    ensures { (result ≡ collected_line line (line.collected + 1)) × (frames.new ≡ with_byte kind line i frames.old) }
{
    add_byte(line, i, kind, frames);
    line.with_collected(line.collected + 1)
}

fn refuse(line: Line, i: usize, kind: Kind, frames: &mut [u8]) -> Line
    requires { (i < lines) × (within_limits line ≡ true) × (length frames.old ≡ frames_size) }
    ensures { (result ≡ waiting_line line) × (frames.new ≡ with_byte kind line i frames.old) }
{
    add_byte(line, i, kind, frames);
    line.waiting()
}

fn accept(
    line: Line,
    i: usize,
    kind: Kind,
    n: usize,
    unfinished: &mut [u8],
    frames: &mut [u8],
) -> Line
    requires { Ready line i unfinished.old frames.old × TextFits line n }
    ensures { Settled (Accept n) kind line i unfinished.old frames.old result unfinished.new frames.new }
{
    write_frame(line, i, kind, n, unfinished, frames);
    line.accepted((line.joined as usize + n) as u16)
}

// What a decision leaves.
pub fn close(
    line: Line,
    i: usize,
    kind: Kind,
    n: usize,
    fate: Fate,
    unfinished: &mut [u8],
    frames: &mut [u8],
) -> Line
    requires { Ready line i unfinished.old frames.old × TextFits line n }
    ensures { Settled (fate_act fate n) kind line i unfinished.old frames.old result unfinished.new frames.new }
{
    match fate {
        Fate::Store => {
            write_frame(line, i, kind, n, unfinished, frames);
            line.accepted(0)
        }
        Fate::Object => {
            write_frame(line, i, kind, n, unfinished, frames);
            line.against()
        }
        Fate::Leave => line,
    }
}

// The frame's text behind the joined text, then its last byte.
fn write_frame(line: Line, i: usize, kind: Kind, n: usize, unfinished: &mut [u8], frames: &mut [u8])
    requires { Ready line i unfinished.old frames.old × TextFits line n }
    ensures { (unfinished.new ≡ with_text line i n unfinished.old frames.old) × (frames.new ≡ with_byte kind line i frames.old) }
{
    write_text(line, i, n, unfinished, frames);
    add_byte(line, i, kind, frames);
}

// The byte behind those collected.
fn add_byte(line: Line, i: usize, kind: Kind, frames: &mut [u8])
    requires { (i < lines) × (within_limits line ≡ true) × (length frames.old ≡ frames_size) }
    ensures { frames.new ≡ with_byte kind line i frames.old }
{
    if let Kind::Byte(b) = kind {
        frames[i * memory::FRAME_PART + line.collected as usize] = b;
    }
}

// The frame's text behind the joined text: the part from there on is lent to the copier.
fn write_text(line: Line, i: usize, n: usize, unfinished: &mut [u8], frames: &[u8])
    requires { Ready line i unfinished.old frames.now × TextFits line n }
    ensures { unfinished.new ≡ with_text line i n unfinished.old frames.now }
{
    let at = i * memory::MESSAGE_LIMIT + line.joined as usize;
    let start = i * memory::FRAME_PART + 1;
    let stop = start + n;
    memory::copy(&mut unfinished[at..], &frames[start..stop]);
}
