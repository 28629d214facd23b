// A byte stored into a buffer. Past its end nothing is stored.
ghost use Rattle.std.specs.Prelude.{◌≡◌, set};

pub fn put_at(s: &mut [u8], i: usize, v: u8)
    ensures { s.new ≡ set s.old i v }
{
    if i < s.len() {
        s[i] = v;
    }
}
