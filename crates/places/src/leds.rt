// The numbers of an LED's states.
ghost use Rattle.std.specs.Prelude.{◌≡◌};
ghost use Rattle.places.specs.Runs.{glow_number};

use frame::Glow;

pub fn glow_number(g: Glow) -> u8
    ensures { result ≡ glow_number g }
{
    match g {
        Glow::Off => 0,
        Glow::On => 1,
        Glow::Slow => 2,
        Glow::Fast => 3,
        Glow::VeryFast => 4,
    }
}
