// What a command does to the bench.
ghost use Rattle.std.specs.Prelude.{◌≡◌, [], ◌∷◌};
ghost use Rattle.kinds.specs.Types.{vmb8ir};
ghost use Rattle.places.specs.Places.{cell_place};
ghost use Rattle.places.specs.Runs.{telling, glow_number, some_leds};
ghost use Rattle.bench.specs.Deeds.{deed, done, done_by};

use crate::bytes::put_bytes;
use crate::leds::{set_all, set_some};
use frame::{Command, Glow, Location, Message};
use places::{cell_place, glow_number};
use replies::KIND;

pub fn set_cell(bench: &mut [u8], l: Location, v: u8)
    ensures { bench.new ≡ done_by (telling (cell_place vmb8ir l.0) (v ∷ [])) bench.old }
{
    let values = [v];
    put_bytes(bench, cell_place(KIND, l), &values);
}

pub fn set_block(bench: &mut [u8], l: Location, a: u8, b: u8, c: u8, d: u8)
    ensures { bench.new ≡ done_by (telling (cell_place vmb8ir l.0) (a ∷ b ∷ c ∷ d ∷ [])) bench.old }
{
    let values = [a, b, c, d];
    put_bytes(bench, cell_place(KIND, l), &values);
}

fn set_glow(bench: &mut [u8], g: Glow, mask: u8)
    ensures { bench.new ≡ done_by (some_leds mask (glow_number g)) bench.old }
{
    set_some(bench, mask, glow_number(g));
}

fn act(bench: &mut [u8], m: Command)
    ensures { bench.new ≡ done_by (deed m) bench.old }
{
    match m {
        Command::TypeLong(_, _, _, _, _, _) => {}
        Command::TypeShort(_, _, _, _) => {}
        Command::Buttons(_, _, _) => {}
        Command::CellTold(_, _) => {}
        Command::BlockTold(_, _, _, _, _) => {}
        Command::CellAsked(_) => {}
        Command::BlockAsked(_) => {}
        Command::DumpAsked => {}
        Command::CellSet(l, v) => set_cell(bench, l, v),
        Command::BlockSet(l, a, b, c, d) => set_block(bench, l, a, b, c, d),
        Command::Errors(_, _, _) => {}
        Command::ErrorsAsked => {}
        Command::NameOne(_, _, _, _, _, _, _) => {}
        Command::NameTwo(_, _, _, _, _, _, _) => {}
        Command::NameThree(_, _, _, _, _) => {}
        Command::NameAsked(_) => {}
        Command::StatusAsked(_) => {}
        Command::InputStatus(_, _, _, _) => {}
        Command::LedsAll(a, b, c) => set_all(bench, a, b, c),
        Command::Leds(g, mask) => set_glow(bench, g, mask),
        Command::BlindStatus(_, _, _, _, _, _, _) => {}
        Command::BlindStop(_) => {}
        Command::BlindUp(_, _) => {}
        Command::BlindDown(_, _) => {}
    }
}

pub fn act_on(bench: &mut [u8], m: Message)
    ensures { bench.new ≡ done m bench.old }
{
    match m {
        Message::TypeRequest => {}
        Message::Tells(c) => act(bench, c),
    }
}
