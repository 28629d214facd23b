// A byte of a slice, wherever it is asked for.
ghost use Rattle.std.specs.Prelude.{◌≡◌, get_or};

// The byte at the index i, and 0 past the end.
pub fn byte_at(s: &[u8], i: usize) -> u8
    ensures { result ≡ get_or s.now i 0 }
{
    if i < s.len() { s[i] } else { 0 }
}
