// The writer of seven-bit numbers.
ghost use Rattle.std.specs.Prelude.{◌≡◌, ◌+◌, ◌≤◌, length};
ghost use Rattle.std.proofs.lemmas.List.Edits.{sets};
ghost use Rattle.groups.specs.Number.{number_bytes, groups_of};
ghost use Rattle.groups.specs.Write.{put_groups, put_into};

// So many groups hold every number of 64 bits.
const MOST_GROUPS: usize = 10;

// How many groups a number takes, of at most `left`.
fn size_within(left: usize, v: u64) -> usize
    ensures { result ≡ length (number_bytes left v) }
{
    if left == 0 {
        return 0;
    }
    if v < 128 {
        return 1;
    }
    size_within(left - 1, v / 128) + 1
}

// How many groups a number takes.
pub fn number_size(v: u64) -> usize
    ensures { result ≡ groups_of v }
{
    size_within(MOST_GROUPS, v)
}

// Writes a number at `at`, in at most `left` groups.
fn fill(out: &mut [u8], at: usize, left: usize, v: u64)
    requires { at + length (number_bytes left v) ≤ length out.old }
    ensures { out.new ≡ sets out.old at (number_bytes left v) }
{
    if left == 0 {
        return;
    }
    if v < 128 {
        out[at] = v as u8;
        return;
    }
    out[at] = (v % 128 + 128) as u8;
    fill(out, at + 1, left - 1, v / 128);
}

// Writes a number at `at`, and answers the count of its groups. Where they have no room there, nothing is written and the answer is 0.
pub fn put_number(out: &mut [u8], at: usize, v: u64) -> usize
    ensures value { result ≡ put_groups out.old at v }
    ensures out_after { out.new ≡ put_into out.old at v }
{
    let size = number_size(v);
    if out.len() < at {
        return 0;
    }
    if out.len() - at < size {
        return 0;
    }
    fill(out, at, MOST_GROUPS, v);
    size
}
