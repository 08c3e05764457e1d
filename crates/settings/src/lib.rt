// What a line speaks. It is set when a gateway starts, and nothing changes it later.
#![tactic(auto)]

ghost use Rattle.std.specs.Prelude.{◌≡◌};
ghost use Rattle.settings.specs.Settings.{results_length, colours_length, speaks_frames};

// The longest block of a strip reader, in bytes.
pub const BLOCK_LIMIT: usize = 239;

// How many bytes the patient number has in a strip reader's blocks.
#[derive(Clone, Copy)]
pub enum Patient {
    Ten,
    Thirteen,
}

// Frames of E1381; or the blocks of a strip reader.
#[derive(Clone, Copy)]
pub enum Dialogue {
    Frames,
    Blocks(Patient),
}

#[derive(Clone, Copy)]
pub struct Settings {
    pub dialogue: Dialogue,
}

// Whether a line speaks frames.
pub fn speaks_frames(settings: Settings) -> bool
    ensures { result ≡ speaks_frames settings }
{
    matches!(settings.dialogue, Dialogue::Frames)
}

impl Patient {
    // The length of a block with results, an E block: the longest of the line.
    pub fn results_length(self) -> usize
        ensures { result ≡ results_length self }
    {
        match self {
            Patient::Ten => 236,
            Patient::Thirteen => 239,
        }
    }

    // The length of a block with colour and turbidity, a D block.
    pub fn colours_length(self) -> usize
        ensures { result ≡ colours_length self }
    {
        match self {
            Patient::Ten => 78,
            Patient::Thirteen => 81,
        }
    }
}
