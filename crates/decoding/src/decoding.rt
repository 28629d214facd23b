// What each command's bytes say.
ghost use Rattle.std.specs.Prelude.{◌≡◌};
ghost use Rattle.frame.specs.Bytes.{bytes_of};
ghost use Rattle.frame.specs.Messages.{type_frame, decode};

use frame::{Command, Data, Glow, TYPE_FRAME, has_long, location_of, number24, time_of};

fn type_frame(d: Data) -> Command
    ensures { result ≡ type_frame (bytes_of d) }
{
    if has_long(d.2) {
        Command::TypeLong(d.2, d.3, d.4, d.5, d.6, d.7)
    } else {
        Command::TypeShort(d.2, d.3, d.4, d.5)
    }
}

pub fn decoded(d: Data) -> Command
    ensures { result ≡ decode (bytes_of d) }
{
    let l = location_of(d.2, d.3);
    let t = time_of(number24(d.3, d.4, d.5));
    let command = d.1;
    match command {
        0x00 => Command::Buttons(d.2, d.3, d.4),
        0xFE => Command::CellTold(l, d.4),
        0xCC => Command::BlockTold(l, d.4, d.5, d.6, d.7),
        0xDA => Command::Errors(d.2, d.3, d.4),
        0xF0 => Command::NameOne(d.2, d.3, d.4, d.5, d.6, d.7, d.8),
        0xF1 => Command::NameTwo(d.2, d.3, d.4, d.5, d.6, d.7, d.8),
        0xF2 => Command::NameThree(d.2, d.3, d.4, d.5, d.6),
        0xEF => Command::NameAsked(d.2),
        0xFA => Command::StatusAsked(d.2),
        0xFD => Command::CellAsked(l),
        0xC9 => Command::BlockAsked(l),
        0xCB => Command::DumpAsked,
        0xFC => Command::CellSet(l, d.4),
        0xCA => Command::BlockSet(l, d.4, d.5, d.6, d.7),
        0xD9 => Command::ErrorsAsked,
        0xEB => Command::InputStatus(d.2, d.3, d.4, d.5),
        0xF4 => Command::LedsAll(d.2, d.3, d.4),
        0xF5 => Command::Leds(Glow::Off, d.2),
        0xF6 => Command::Leds(Glow::On, d.2),
        0xF7 => Command::Leds(Glow::Slow, d.2),
        0xF8 => Command::Leds(Glow::Fast, d.2),
        0xF9 => Command::Leds(Glow::VeryFast, d.2),
        0xEC => Command::BlindStatus(d.2, d.3, d.4, d.5, d.6, d.7, d.8),
        0x04 => Command::BlindStop(d.2),
        0x05 => Command::BlindUp(d.2, t),
        0x06 => Command::BlindDown(d.2, t),
        TYPE_FRAME => type_frame(d),
        _ => Command::ErrorsAsked,
    }
}
