// The eight LEDs, as the bytes of a status frame show them.
ghost use Rattle.std.specs.Prelude.{◌≡◌, [], ◌∷◌, ◌≤◌};
ghost use Rattle.replies.specs.Leds.{ones, one_shown};
ghost use Rattle.frame.specs.declared.messages.Glow.TheVariants.{On, Slow, Fast, VeryFast};
ghost use Rattle.replies.specs.Bench.{leds};

use laws::byte_at;
use places::LEDS;

const FIRST: usize = LEDS as usize;

// The states that a status frame shows.
const ON: u8 = 1;

const SLOW: u8 = 2;

const FAST: u8 = 3;

const VERY_FAST: u8 = 4;

// The states of the LEDs, the first one first.
#[derive(Clone, Copy)]
struct States(u8, u8, u8, u8, u8, u8, u8, u8);

fn few_lights(bench: &[u8]) -> States
    ensures { leds bench.now ≡ result.0 ∷ result.1 ∷ result.2 ∷ result.3 ∷ result.4 ∷ result.5 ∷ result.6 ∷ result.7 ∷ [] }
{
    States(
        byte_at(bench, FIRST),
        byte_at(bench, FIRST + 1),
        byte_at(bench, FIRST + 2),
        byte_at(bench, FIRST + 3),
        byte_at(bench, FIRST + 4),
        byte_at(bench, FIRST + 5),
        byte_at(bench, FIRST + 6),
        byte_at(bench, FIRST + 7),
    )
}

// The same behind one guard.
fn lights(bench: &[u8]) -> States
    ensures { leds bench.now ≡ result.0 ∷ result.1 ∷ result.2 ∷ result.3 ∷ result.4 ∷ result.5 ∷ result.6 ∷ result.7 ∷ [] }
{
    if bench.len() < FIRST + 8 {
        return few_lights(bench);
    }
    States(
        bench[FIRST],
        bench[FIRST + 1],
        bench[FIRST + 2],
        bench[FIRST + 3],
        bench[FIRST + 4],
        bench[FIRST + 5],
        bench[FIRST + 6],
        bench[FIRST + 7],
    )
}

// What a status frame's on, slow and fast byte show of the LEDs.
#[derive(Clone, Copy)]
pub struct Shown(pub u8, pub u8, pub u8);

// The bits of one LED in the three bytes, as one number: 1 in the on byte, 256 in the slow and 65536 in the fast.
fn one_shown(x: u8) -> u32
    ensures { (result ≡ one_shown x) × (result ≤ 65792) }
{
    match x {
        ON => 1,
        SLOW => 256,
        FAST => 65536,
        VERY_FAST => 65792,
        _ => 0,
    }
}

pub fn leds_shown(bench: &[u8]) -> Shown
    ensures { (result.0 ≡ ones On On (leds bench.now)) × (result.1 ≡ ones Slow VeryFast (leds bench.now)) × (result.2 ≡ ones Fast VeryFast (leds bench.now)) }
{
    let x = lights(bench);
    let h = one_shown(x.7);
    let g = one_shown(x.6) + 2 * h;
    let f = one_shown(x.5) + 2 * g;
    let e = one_shown(x.4) + 2 * f;
    let d = one_shown(x.3) + 2 * e;
    let c = one_shown(x.2) + 2 * d;
    let b = one_shown(x.1) + 2 * c;
    let a = one_shown(x.0) + 2 * b;
    Shown(
        (a % 256) as u8,
        (a / 256 % 256) as u8,
        (a / 65536 % 256) as u8,
    )
}
