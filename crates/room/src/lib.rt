// The room rule, over any shares; and today's.
#![tactic(auto)]

ghost use Rattle.std.specs.Prelude.{◌≡◌};
ghost use Rattle.room.specs.Room.{todays_shares, fits};

// The bytes that are guaranteed to a line today.
pub const SHARE: u16 = 2048;

pub fn shares() -> [u16; 8]
    ensures { result ≡ todays_shares }
{
    [SHARE; 8]
}

// Whether the lines' claims, for each the larger of used count and share, fit the journal together.
#[tactic(auto, unfolding(crate::specs::Room::claims))]
pub fn has_room(used: [u32; 8], shares: [u16; 8]) -> bool
    ensures { result ≡ fits shares used }
{
    let mut sum: usize = 0;
    for i in 0..memory::LINES {
        sum += used[i].max(shares[i] as u32) as usize;
    }
    sum <= memory::JOURNAL_SIZE
}
