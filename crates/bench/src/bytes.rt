// Bytes stored into a buffer. Past its end nothing is stored.
ghost use Rattle.std.specs.Prelude.{◌≡◌, ◌≤◌, length};
ghost use Rattle.std.proofs.lemmas.List.Edits.{sets};

use shape::put_at;

// All of `source`, from `at` on.
pub(crate) fn put_bytes(s: &mut [u8], at: u32, source: &[u8])
    requires { length source.now ≤ 65536 }
    ensures { s.new ≡ sets s.old at source.now }
{
    let from = at as usize;
    for (i, byte) in source.iter().enumerate() {
        put_at(s, from + i, *byte);
    }
}
