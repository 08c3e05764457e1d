// What is written: a trace's name and the lines of its listing, and on the standard error what went wrong.
ghost use Rattle.std.specs.Prelude.{OnOk, IfErr};
ghost use Rattle.replay.specs.Faults.{OfOutput};
ghost use Rattle.std.specs.Io.KnownBytes.{Appends};
ghost use Rattle.replay.specs.Replays.{title_of};

use crate::turns::Fault;
use std::fmt::Display;
use std::io::Write;

// The name of a trace, where there are several.
pub fn title<W: Write>(listing: &mut W, name: &str, titled: bool) -> Result<(), Fault>
    ensures ok { OnOk result
        (Appends (W.contents listing.old) (W.contents listing.new) (title_of titled name.now)) }
    ensures fault { IfErr result OfOutput }
{
    if titled {
        return writeln!(listing, "==> {name}").map_err(Fault::Output);
    }
    Ok(())
}

// Writes lines.
pub fn lines<W: Write>(listing: &mut W, text: &[u8]) -> Result<(), Fault>
    ensures ok { OnOk result (Appends (W.contents listing.old) (W.contents listing.new) text.now) }
    ensures fault { IfErr result OfOutput }
{
    listing.write_all(text).map_err(Fault::Output)
}

// Writes a line to the standard error: what failed, and why. Where that fails too, nothing more can be done.
pub fn tell(rt: &impl Eprint, what: &str, why: impl Display + Drop) {
    let _ = eprintln!(rt; "{what}: {why}");
}
