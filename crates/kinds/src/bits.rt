// The bits of a byte.
ghost use Rattle.std.specs.Prelude.{◌≡◌};
ghost use Rattle.kinds.specs.Bits.{bits, ones, one_bit};
ghost use Rattle.kinds.specs.Types.{position_in};

// How many bits of a byte are ones.
fn ones(x: u8) -> u32
    ensures { result ≡ ones x }
{
    u8::count_ones(x)
}

pub fn one_bit(x: u8) -> bool
    ensures { result ≡ one_bit x }
{
    ones(x) == 1
}

// Which bit a byte of one bit has, from 0; 8 where it is no such byte.
pub fn bit_position(x: u8) -> u8
    ensures { result ≡ position_in bits x }
{
    if x == 0 {
        return 8;
    }
    if one_bit(x) {
        u8::trailing_zeros(x) as u8
    } else {
        8
    }
}
