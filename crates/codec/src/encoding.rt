// The bytes that each command is written as.
ghost use Rattle.std.specs.Prelude.{◌≡◌};
ghost use Rattle.frame.specs.Bytes.{data_of};
ghost use Rattle.codec.specs.Encoding.{seconds_of, high_of, low_of, glow_command, timed_bytes, encode};

use frame::{
    Command, DIP_SWITCH, Data, Glow, LONG, Location, PERMANENTLY, SHORT, TYPE_FRAME, Time,
};

fn seconds(t: Time) -> u32
    ensures { result ≡ seconds_of t }
{
    match t {
        Time::DipSwitch => DIP_SWITCH,
        Time::Permanently => PERMANENTLY,
        Time::Seconds(n) => n,
    }
}

fn glow_command(g: Glow) -> u8
    ensures { result ≡ glow_command g }
{
    match g {
        Glow::Off => 0xF5,
        Glow::On => 0xF6,
        Glow::Slow => 0xF7,
        Glow::Fast => 0xF8,
        Glow::VeryFast => 0xF9,
    }
}

// So many bytes: a command, a location, and what follows it.
fn located(count: usize, command: u8, l: Location, a: u8, b: u8, c: u8, d: u8) -> Data
    ensures { result ≡ record { 0 = count; 1 = command; 2 = high_of l; 3 = low_of l; 4 = a; 5 = b; 6 = c; 7 = d; 8 = 0 } }
{
    let high = (l.0 / 256 % 256) as u8;
    let low = (l.0 % 256) as u8;
    Data(count, command, high, low, a, b, c, d, 0)
}

// A command on a blind, with its time in bytes 3 to 5.
fn timed(command: u8, channel: u8, t: Time) -> Data
    ensures { result ≡ data_of (timed_bytes command channel t) }
{
    let s = seconds(t);
    Data(
        5,
        command,
        channel,
        (s / 65536 % 256) as u8,
        (s / 256 % 256) as u8,
        (s % 256) as u8,
        0,
        0,
        0,
    )
}

pub fn encoded(m: Command) -> Data
    ensures { result ≡ data_of (encode m) }
{
    match m {
        Command::TypeLong(k, a, b, c, d, e) => Data(LONG, TYPE_FRAME, k, a, b, c, d, e, 0),
        Command::TypeShort(k, a, b, c) => Data(SHORT, TYPE_FRAME, k, a, b, c, 0, 0, 0),
        Command::Buttons(a, b, c) => Data(4, 0x00, a, b, c, 0, 0, 0, 0),
        Command::CellTold(l, v) => located(4, 0xFE, l, v, 0, 0, 0),
        Command::BlockTold(l, a, b, c, d) => located(7, 0xCC, l, a, b, c, d),
        Command::CellAsked(l) => located(3, 0xFD, l, 0, 0, 0, 0),
        Command::BlockAsked(l) => located(3, 0xC9, l, 0, 0, 0, 0),
        Command::DumpAsked => Data(1, 0xCB, 0, 0, 0, 0, 0, 0, 0),
        Command::CellSet(l, v) => located(4, 0xFC, l, v, 0, 0, 0),
        Command::BlockSet(l, a, b, c, d) => located(7, 0xCA, l, a, b, c, d),
        Command::Errors(a, b, c) => Data(4, 0xDA, a, b, c, 0, 0, 0, 0),
        Command::ErrorsAsked => Data(1, 0xD9, 0, 0, 0, 0, 0, 0, 0),
        Command::NameOne(n, a, b, c, d, e, f) => Data(8, 0xF0, n, a, b, c, d, e, f),
        Command::NameTwo(n, a, b, c, d, e, f) => Data(8, 0xF1, n, a, b, c, d, e, f),
        Command::NameThree(n, a, b, c, d) => Data(6, 0xF2, n, a, b, c, d, 0, 0),
        Command::NameAsked(n) => Data(2, 0xEF, n, 0, 0, 0, 0, 0, 0),
        Command::StatusAsked(n) => Data(2, 0xFA, n, 0, 0, 0, 0, 0, 0),
        Command::InputStatus(a, b, c, d) => Data(5, 0xEB, a, b, c, d, 0, 0, 0),
        Command::LedsAll(a, b, c) => Data(4, 0xF4, a, b, c, 0, 0, 0, 0),
        Command::Leds(g, x) => Data(2, glow_command(g), x, 0, 0, 0, 0, 0, 0),
        Command::BlindStatus(n, a, b, c, d, e, f) => Data(8, 0xEC, n, a, b, c, d, e, f),
        Command::BlindStop(n) => Data(2, 0x04, n, 0, 0, 0, 0, 0, 0),
        Command::BlindUp(n, t) => timed(0x05, n, t),
        Command::BlindDown(n, t) => timed(0x06, n, t),
    }
}
