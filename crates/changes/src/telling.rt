// What a run of a fixed number of places says, heard by the module in a slot: first the places as they are go into the log. Each looks first whether its
// places lie in a record of the picture, so that it asks nothing of its caller; a caller that knows it pays nothing for that.
ghost use Rattle.std.specs.Prelude.{◌≡◌, ◌+◌, ◌<◌, ◌≤◌, [], ◌∷◌, length, replicate};
ghost use Rattle.places.specs.Runs.{asks, tells, telling, asking, build_told, led_if, all_leds, some_leds};
ghost use Rattle.stores.specs.Stores.{put_at, written};
ghost use Rattle.changes.specs.Telling.{told_in, passed_in};

use crate::leds::{bit, four_bytes};
use places::{LEDS, YEAR};
use shape::{SIZE, place_at};
use steering::step_on;
use stores::{DID_NOTHING, lies, note, put_build, put_pair, put_row, save};

// A step with no effect.
pub fn pass(picture: &mut [u8])
    ensures { picture.new ≡ passed_in picture.old }
{
    if picture.len() < SIZE {
        return;
    }
    note(picture, DID_NOTHING);
    step_on(picture);
}

// Four neighbouring places told.
fn put_four(picture: &mut [u8], at: usize, a: u8, b: u8, c: u8, d: u8)
    requires { at + 8 ≤ length picture.old }
    ensures { picture.new ≡ written picture.old at (tells a ∷ tells b ∷ tells c ∷ tells d ∷ []) }
{
    put_pair(picture, at, a, 0);
    put_pair(picture, at + 2, b, 0);
    put_pair(picture, at + 4, c, 0);
    put_pair(picture, at + 6, d, 0);
}

pub fn tell_one(picture: &mut [u8], slot: u8, start: u32, value: u8)
    ensures { picture.new ≡ told_in picture.old slot (telling start (value ∷ [])) }
{
    if !lies(picture.len(), slot, start, 1) {
        return;
    }
    save(picture, slot, start);
    put_pair(picture, place_at(slot, start), value, 0);
    step_on(picture);
}

// The build.
pub fn tell_build(picture: &mut [u8], slot: u8, year: u8, week: u8)
    ensures { picture.new ≡ told_in picture.old slot (build_told year week) }
{
    if !lies(picture.len(), slot, YEAR, 2) {
        return;
    }
    save(picture, slot, YEAR);
    put_build(picture, slot, year, week);
    step_on(picture);
}

// Four neighbouring places.
pub fn tell_four(picture: &mut [u8], slot: u8, start: u32, a: u8, b: u8, c: u8, d: u8)
    ensures { picture.new ≡ told_in picture.old slot (telling start (a ∷ b ∷ c ∷ d ∷ [])) }
{
    if !lies(picture.len(), slot, start, 4) {
        return;
    }
    save(picture, slot, start);
    put_four(picture, place_at(slot, start), a, b, c, d);
    step_on(picture);
}

// Six neighbouring places.
pub fn tell_six(picture: &mut [u8], slot: u8, start: u32, a: u8, b: u8, c: u8, d: u8, e: u8, f: u8)
    ensures { picture.new ≡ told_in picture.old slot (telling start (a ∷ b ∷ c ∷ d ∷ e ∷ f ∷ [])) }
{
    if !lies(picture.len(), slot, start, 6) {
        return;
    }
    save(picture, slot, start);
    let at = place_at(slot, start);
    put_four(picture, at, a, b, c, d);
    put_pair(picture, at + 8, e, 0);
    put_pair(picture, at + 10, f, 0);
    step_on(picture);
}

pub fn ask_one(picture: &mut [u8], slot: u8, start: u32)
    ensures { picture.new ≡ told_in picture.old slot (asking start 1) }
{
    if !lies(picture.len(), slot, start, 1) {
        return;
    }
    save(picture, slot, start);
    put_pair(picture, place_at(slot, start), 0, 1);
    step_on(picture);
}

// Four neighbouring places that are not heard.
fn put_unknown(picture: &mut [u8], at: usize)
    requires { at + 8 ≤ length picture.old }
    ensures { picture.new ≡ written picture.old at (replicate 4 asks) }
{
    put_pair(picture, at, 0, 1);
    put_pair(picture, at + 2, 0, 1);
    put_pair(picture, at + 4, 0, 1);
    put_pair(picture, at + 6, 0, 1);
}

pub fn ask_four(picture: &mut [u8], slot: u8, start: u32)
    ensures { picture.new ≡ told_in picture.old slot (asking start 4) }
{
    if !lies(picture.len(), slot, start, 4) {
        return;
    }
    save(picture, slot, start);
    put_unknown(picture, place_at(slot, start));
    step_on(picture);
}

// All eight LEDs.
pub fn tell_leds(picture: &mut [u8], slot: u8, on: u8, slow: u8, fast: u8)
    ensures { picture.new ≡ told_in picture.old slot (all_leds on slow fast) }
{
    if !lies(picture.len(), slot, LEDS, 8) {
        return;
    }
    let low = four_bytes(on, slow, fast, 0);
    let high = four_bytes(on, slow, fast, 4);
    save(picture, slot, LEDS);
    let at = place_at(slot, LEDS);
    put_row(picture, at, low);
    put_row(picture, at + 8, high);
    step_on(picture);
}

// An LED that is told where the mask has a one, and else not spoken of.
fn put_if(picture: &mut [u8], at: usize, mask: u8, i: u32, value: u8)
    requires { i < 8 }
    ensures { picture.new ≡ put_at picture.old at (led_if mask value i) }
{
    if bit(mask, i) == 1 {
        put_pair(picture, at, value, 0);
    }
}

// Four neighbouring LEDs, each by its bit of the mask, from bit i on.
fn put_some(picture: &mut [u8], at: usize, mask: u8, i: u32, value: u8)
    requires { (at + 8 ≤ length picture.old) × (i ≤ 4) }
    ensures { picture.new ≡ written picture.old at (led_if mask value i ∷ led_if mask value (i + 1) ∷ led_if mask value (i + 2) ∷ led_if mask value (i + 3) ∷ []) }
{
    put_if(picture, at, mask, i, value);
    put_if(picture, at + 2, mask, i + 1, value);
    put_if(picture, at + 4, mask, i + 2, value);
    put_if(picture, at + 6, mask, i + 3, value);
}

// The LEDs that the mask names.
pub fn tell_some_leds(picture: &mut [u8], slot: u8, mask: u8, state: u8)
    ensures { picture.new ≡ told_in picture.old slot (some_leds mask state) }
{
    if !lies(picture.len(), slot, LEDS, 8) {
        return;
    }
    save(picture, slot, LEDS);
    let at = place_at(slot, LEDS);
    put_some(picture, at, mask, 0, state);
    put_some(picture, at + 8, mask, 4, state);
    step_on(picture);
}
