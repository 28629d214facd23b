// The states of the eight LEDs, from the bytes that speak of all of them: four at a time, each a 16-bit number of a word, as places hold them.
ghost use Rattle.std.specs.Prelude.{◌≡◌, ◌+◌, ◌-◌, ◌*◌, ◌<◌, ◌≤◌};
ghost use Rattle.places.specs.Runs.{bit, led_by};
ghost use Rattle.changes.specs.Lanes.{lane_word, word_bytes};

// Bit i of a byte, counted from 0.
pub(crate) fn bit(x: u8, i: u32) -> u8
    requires { i < 8 }
    ensures { result ≡ bit x i }
{
    (x >> i) % 2
}

// A byte times this stands in the product four times, fifteen bits apart, so that its bit i is at bit 16 i, and its bit i + 4 four further on.
const FIFTEEN_APART: u64 = 0x0000200040008001;

// Bit 0 of each of four 16-bit numbers.
const LOWEST: u64 = 0x0001000100010001;

// Four bits of a byte, from bit `from` on, each as a 16-bit number.
fn lanes(x: u8, from: u32) -> u64
    requires { from ≤ 4 }
    ensures { result ≡ lane_word (bit x) from }
{
    (x as u64 * FIFTEEN_APART >> from) & LOWEST
}

// Four states at once: on is 1, slow 2, fast 3, and slow with fast 4. The difference is of the kind that may wrap, although it never does: of any
// other the compiler would know that its last byte is 0, and store each byte by itself.
fn states(on: u64, slow: u64, fast: u64, both: u64) -> u64
    requires { (on ≤ 0x0001000100010001) × (slow ≤ 0x0001000100010001) × (fast ≤ 0x0001000100010001) × (both ≤ fast) }
    ensures { result ≡ on + 2 * slow + 3 * fast - both }
{
    std::num::wrapping_sub_u64(on + 2 * slow + 3 * fast, both)
}

// Four LEDs, from the one of bit `from` on. Those that are on blink neither slowly nor fast.
fn four_leds(on: u8, slow: u8, fast: u8, from: u32) -> u64
    requires { from ≤ 4 }
    ensures { result ≡ lane_word (led_by on slow fast) from }
{
    let slowly = slow & (255 - on);
    let quickly = fast & (255 - on);
    states(
        lanes(on, from),
        lanes(slowly, from),
        lanes(quickly, from),
        lanes(slowly & quickly, from),
    )
}

fn word_bytes(w: u64) -> [u8; 8]
    ensures { result ≡ word_bytes w }
{
    [
        (w % 256) as u8,
        (w / 256 % 256) as u8,
        (w / 65536 % 256) as u8,
        (w / 16777216 % 256) as u8,
        (w / 4294967296 % 256) as u8,
        (w / 1099511627776 % 256) as u8,
        (w / 281474976710656 % 256) as u8,
        (w / 72057594037927936 % 256) as u8,
    ]
}

// Four LEDs as the bytes of four places.
pub(crate) fn four_bytes(on: u8, slow: u8, fast: u8, from: u32) -> [u8; 8]
    requires { from ≤ 4 }
    ensures { result ≡ word_bytes (lane_word (led_by on slow fast) from) }
{
    word_bytes(four_leds(on, slow, fast, from))
}
