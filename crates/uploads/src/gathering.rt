// The block that a byte ends, gathered in a scratch: the line's collected bytes, and the byte.
ghost use Rattle.std.specs.Prelude.{◌+◌, ◌≡◌, length, take};
ghost use Rattle.settings.specs.Settings.{block_limit};
ghost use Rattle.looking.specs.Views.{frames_of};
ghost use Rattle.uploads.specs.Uploads.{block_bytes};
ghost use Rattle.uploads.specs.Inner.Ruled.{Room};

use line::Line;

pub fn gather(place: &mut [u8], line: Line, i: usize, byte: u8, frames: &[u8])
    requires { (length place.old ≡ block_limit) × Room line i frames.now }
    ensures { (length place.new ≡ block_limit) × (take (line.collected + 1) place.new ≡ block_bytes line byte (frames_of i frames.now)) }
{
    let n = line.collected as usize;
    let start = i * memory::FRAME_PART;
    let end = start + n;
    memory::copy(place, &frames[start..end]);
    place[n] = byte;
}
