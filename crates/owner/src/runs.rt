// Owners: a record owns the run of deeper records behind it, and so does each of these.
ghost use Rattle.std.specs.Prelude.{◌≡◌, ◌+◌, ◌<◌, ◌≤◌, length};
ghost use Rattle.std.proofs.lemmas.List.Edits.{sets};
ghost use Rattle.owner.specs.Inner.Depths.{depth_of};
ghost use Rattle.owner.specs.Inner.Nearest.{depth_at, nearest, Ready, Ran, nearest_owners};

// How deep a record of a type stands: H and L 1, P and Q 2, O 3, R 4, and C and M below them all.
fn depth(b: u8) -> u8
    ensures { result ≡ depth_of b }
{
    match b {
        b'H' => 1,
        b'L' => 1,
        b'P' => 2,
        b'Q' => 2,
        b'O' => 3,
        b'R' => 4,
        b'C' => 5,
        b'M' => 5,
        _ => 5,
    }
}

// How deep record n stands, or 0 behind the last record: nothing is less deep.
fn depth_at(types: &[u8], n: usize) -> u8
    ensures { (n < length types.now → result ≡ depth_at types.now n) × (length types.now ≤ n → result ≡ 0) }
{
    if types.len() <= n {
        return 0;
    }
    let b = types[n];
    depth(b)
}

// Record n, which stands at depth d, with its owner, and the run that it owns. Gives the next record. Most records own none.
#[cycle(read_owner_read_run)]
fn read_owner(types: &[u8], owners: &mut [u16], n: usize, d: u8, owner: u16) -> usize
    requires within { (n < length types.now) × (length types.now ≤ length owners.old) × (length types.now < 65535) }
    requires deep { d ≡ depth_at types.now n }
    requires owned { nearest types.now n (depth_at types.now n) ≡ owner }
    ensures { Ran types.now owners.old owners.new (depth_at types.now n) n (n + 1) result }
{
    owners[n] = owner;
    let next = n + 1;
    if depth_at(types, next) <= d {
        return next;
    }
    read_run(types, owners, next, d, next as u16)
}

// The run of records from n on that stand deeper than `over`, each with what it owns. Gives the first record behind the run.
#[cycle(read_owner_read_run)]
fn read_run(types: &[u8], owners: &mut [u16], n: usize, over: u8, owner: u16) -> usize
    requires within { (n ≤ length types.now) × (length types.now ≤ length owners.old) × (length types.now < 65535) }
    requires ready { Ready types.now over n owner }
    ensures { Ran types.now owners.old owners.new over n n result }
{
    let mut at = n;
    let mut d = depth_at(types, at);
    // A turn takes one record and what it owns: its step is as many records.
    while over < d {
        at = read_owner(types, owners, at, d, owner);
        d = depth_at(types, at);
    }
    at
}

// Writes each record's owner: the whole message is a run of its own, which no record owns.
pub fn fill_owners(types: &[u8], owners: &mut [u16])
    requires { (length types.now ≤ length owners.old) × (length types.now < 65535) }
    ensures { owners.new ≡ sets owners.old 0 (nearest_owners types.now) }
{
    read_run(types, owners, 0, 0, 0);
}
