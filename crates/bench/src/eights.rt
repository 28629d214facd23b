// The states of the eight LEDs, a byte each, from the bytes that speak of all of them: all at once, in a word.
ghost use Rattle.std.specs.Prelude.{◌≡◌, ◌≤◌};
ghost use Rattle.laws.specs.Tab.{tab};
ghost use Rattle.places.specs.Runs.{bit, led_by};
ghost use Rattle.bench.specs.Eights.{byte_word, byte_list};

// A byte times this stands in the product eight times, one behind the other.
const EIGHT_TIMES: u64 = 0x0101010101010101;

// Of the i-th of them, bit i.
const DIAGONAL: u64 = 0x8040201008040201;

// Added to a byte of one bit it makes bit 7, and to one of no bit it does not.
const ALL_BUT_ONE: u64 = 0x7F7F7F7F7F7F7F7F;

// Bit i of a byte as byte i of a word.
fn spread(x: u8) -> u64
    ensures { (result ≡ byte_word (tab 8 (bit x))) × (result ≤ 0x0101010101010101) }
{
    ((((x as u64 * EIGHT_TIMES) & DIAGONAL) + ALL_BUT_ONE) / 128) & EIGHT_TIMES
}

// The states of all LEDs, a byte each: on and fast are odd, slow and fast have bit 1, and slow with fast has bit 2 alone.
fn all_leds(on: u8, slow: u8, fast: u8) -> u64
    ensures { result ≡ byte_word (tab 8 (led_by on slow fast)) }
{
    let slowly = slow & (255 - on);
    let quickly = fast & (255 - on);
    let odd = spread(on | (quickly & (255 - slowly)));
    let twos = spread(slowly ^ quickly);
    let fours = spread(slowly & quickly);
    odd + 2 * twos + 4 * fours
}

// The bytes of a word, the lowest first.
fn bytes_of(w: u64) -> [u8; 8]
    ensures { result ≡ byte_list 8 w }
{
    let b = w / 256;
    let c = b / 256;
    let d = c / 256;
    let e = d / 256;
    let f = e / 256;
    let g = f / 256;
    let h = g / 256;
    [
        (w % 256) as u8,
        (b % 256) as u8,
        (c % 256) as u8,
        (d % 256) as u8,
        (e % 256) as u8,
        (f % 256) as u8,
        (g % 256) as u8,
        (h % 256) as u8,
    ]
}

pub(crate) fn led_states(on: u8, slow: u8, fast: u8) -> [u8; 8]
    ensures { result ≡ tab 8 (led_by on slow fast) }
{
    bytes_of(all_leds(on, slow, fast))
}
