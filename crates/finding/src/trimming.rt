// Bytes without the spaces at their ends.
ghost use Rattle.std.specs.Prelude.{◌≡◌, ◌≤◌, length, take, drop};
ghost use Rattle.finding.specs.Trimmed.{trimmed_front, trimmed_back, trimmed};

// How many spaces stand in front.
fn spaces_in_front(text: &[u8]) -> usize
    ensures { (result ≤ length text.now) × (drop result text.now ≡ trimmed_front text.now) }
{
    text.iter().position(|&b| b != b' ').unwrap_or(text.len())
}

// How many bytes stand before the spaces at the end.
fn before_spaces(text: &[u8]) -> usize
    ensures { (result ≤ length text.now) × (take result text.now ≡ trimmed_back text.now) }
{
    text.iter()
        .rposition(|&b| b != b' ')
        .map_or(0, |last| last + 1)
}

// The bytes between.
pub fn trimmed(text: &[u8]) -> &[u8]
    ensures { result.now ≡ trimmed text.now }
{
    let start = spaces_in_front(text);
    let rest = &text[start..];
    let end = before_spaces(rest);
    &rest[..end]
}
