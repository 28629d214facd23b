// The eight LEDs, set by a command.
ghost use Rattle.std.specs.Prelude.{◌≡◌, cond, eqb};
ghost use Rattle.places.specs.Runs.{silent, tells, all_leds, some_leds};
ghost use Rattle.bench.specs.Deeds.{keep, done_by};

use crate::bytes::put_bytes;
use crate::eights::led_states;
use places::LEDS;
use shape::put_at;

const FIRST: usize = LEDS as usize;

// All eight, by an on byte, a slow byte and a fast byte.
pub fn set_all(bench: &mut [u8], on: u8, slow: u8, fast: u8)
    ensures { bench.new ≡ done_by (all_leds on slow fast) bench.old }
{
    let states = led_states(on, slow, fast);
    put_bytes(bench, LEDS, &states);
}

fn put_if(bench: &mut [u8], p: usize, bit: u8, state: u8)
    ensures { bench.new ≡ keep bench.old p (cond (eqb bit 1) (tells state) silent) }
{
    if bit == 1 {
        put_at(bench, p, state);
    }
}

// Those with a one in the mask.
pub fn set_some(bench: &mut [u8], mask: u8, state: u8)
    ensures { bench.new ≡ done_by (some_leds mask state) bench.old }
{
    put_if(bench, FIRST, mask % 2, state);
    put_if(bench, FIRST + 1, mask / 2 % 2, state);
    put_if(bench, FIRST + 2, mask / 4 % 2, state);
    put_if(bench, FIRST + 3, mask / 8 % 2, state);
    put_if(bench, FIRST + 4, mask / 16 % 2, state);
    put_if(bench, FIRST + 5, mask / 32 % 2, state);
    put_if(bench, FIRST + 6, mask / 64 % 2, state);
    put_if(bench, FIRST + 7, mask / 128 % 2, state);
}
