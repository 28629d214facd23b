// The reader of seven-bit numbers, group by group: low group first, the top bit of a byte says that another follows, the shortest form only.
ghost use Rattle.std.specs.Prelude.{◌≡◌, ◌<◌, drop};
ghost use Rattle.groups.specs.Number.{read_number};

// Why no number is read: the input ends inside it, or it has a byte that no allowed number can have there; with the offset of the first.
#[derive(Clone, Copy, Debug, PartialEq, Eq)]
pub enum NumberFault {
    Ends,
    Bad(usize),
}

pub fn wide(x: u8) -> u64
    ensures value { result ≡ x }
    ensures upper_bound { result < 256 }
{
    x as u64
}

// The number at `at`, of at most `left` groups and at most `most`, and the count of its groups: each group hands the rest on with one
// group fewer allowed.
pub fn read_groups(s: &[u8], at: usize, left: usize, most: u64) -> Result<(u64, usize), NumberFault>
    ensures { result ≡ read_number left most at (drop at s.now) }
{
    if s.len() <= at {
        return Err(NumberFault::Ends);
    }
    if left == 0 {
        return Err(NumberFault::Bad(at));
    }
    let b = wide(s[at]);
    if most < b {
        return Err(NumberFault::Bad(at));
    }
    if b < 128 {
        return Ok((b, 1));
    }
    if left == 1 {
        return Err(NumberFault::Bad(at));
    }
    let low = b - 128;
    let (rest, groups) = read_groups(s, at + 1, left - 1, (most - low) / 128)?;
    if rest == 0 {
        return Err(NumberFault::Bad(at + 1));
    }
    Ok((low + 128 * rest, groups + 1))
}
