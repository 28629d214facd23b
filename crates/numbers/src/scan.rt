// The reader of seven-bit numbers, group by group.
ghost use Rattle.std.specs.Prelude.{◌≡◌};
ghost use Rattle.groups.specs.Number.{number_at};

use groups::{NumberFault, number_size, read_groups};

// The number at `at`, which is at most `most`, in as many groups as `most` itself takes.
pub fn number(s: &[u8], at: usize, most: u64) -> Result<(u64, usize), NumberFault>
    ensures { result ≡ number_at s.now at most }
{
    read_groups(s, at, number_size(most), most)
}
