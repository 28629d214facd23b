// A message as fields of numbers, the same fields for every message: what a C host reads and writes.
ghost use Rattle.std.specs.Prelude.{◌≡◌};
ghost use Rattle.layouts.specs.Parts.{
  glow_from,
  time_number,
  time_seconds,
  time_from,
  free,
  located,
  channelled,
  glowing,
  timed,
  long_types,
  short_types,
  number_in,
  command_parts,
  parts_of,
  command_from,
  message_from,
  same_six,
  same_parts,
  held_by,
};

use frame::{Address, Command, Glow, Location, Message, Time};
use kinds::{VMB1BL, VMB2BL, VMB8IR};
use places::glow_number;

// The bytes of a frame that have no field of their own, in their order.
#[derive(Clone, Copy, PartialEq, Eq)]
pub struct Six(pub u8, pub u8, pub u8, pub u8, pub u8, pub u8);

// `what` is the message's own number; a field that a message does not have is 0.
#[derive(Clone, Copy, PartialEq, Eq)]
pub struct Parts {
    pub what: u8,
    pub address: u8,
    pub channel: u8,
    pub glow: u8,
    pub location: u16,
    pub bytes: Six,
    pub time: u8,
    pub seconds: u32,
}

// The type numbers as they stand in a frame.
const LONG_TYPE: u8 = VMB8IR as u8;

const ONE_BLIND: u8 = VMB1BL as u8;

const TWO_BLINDS: u8 = VMB2BL as u8;

// The number that no message has.
const NO_MESSAGE: u8 = 255;

fn glow_from(n: u8) -> Glow
    ensures { result ≡ glow_from n }
{
    match n {
        1 => Glow::On,
        2 => Glow::Slow,
        3 => Glow::Fast,
        4 => Glow::VeryFast,
        _ => Glow::Off,
    }
}

fn time_number(t: Time) -> u8
    ensures { result ≡ time_number t }
{
    match t {
        Time::DipSwitch => 1,
        Time::Permanently => 2,
        Time::Seconds(_) => 3,
    }
}

fn time_seconds(t: Time) -> u32
    ensures { result ≡ time_seconds t }
{
    match t {
        Time::DipSwitch => 0,
        Time::Permanently => 0,
        Time::Seconds(n) => n,
    }
}

fn time_from(n: u8, seconds: u32) -> Time
    ensures { result ≡ time_from n seconds }
{
    match n {
        1 => Time::DipSwitch,
        2 => Time::Permanently,
        _ => Time::Seconds(seconds),
    }
}

fn free(what: u8, a: Address, bytes: Six) -> Parts
    ensures { result ≡ free what a bytes }
{
    Parts {
        what,
        address: a.0,
        channel: 0,
        glow: 0,
        location: 0,
        bytes,
        time: 0,
        seconds: 0,
    }
}

fn located(what: u8, a: Address, l: Location, bytes: Six) -> Parts
    ensures { result ≡ located what a l bytes }
{
    Parts {
        what,
        address: a.0,
        channel: 0,
        glow: 0,
        location: l.0,
        bytes,
        time: 0,
        seconds: 0,
    }
}

fn channelled(what: u8, a: Address, channel: u8, bytes: Six) -> Parts
    ensures { result ≡ channelled what a channel bytes }
{
    Parts {
        what,
        address: a.0,
        channel,
        glow: 0,
        location: 0,
        bytes,
        time: 0,
        seconds: 0,
    }
}

fn glowing(what: u8, a: Address, g: Glow, mask: u8) -> Parts
    ensures { result ≡ glowing what a g mask }
{
    Parts {
        what,
        address: a.0,
        channel: 0,
        glow: glow_number(g),
        location: 0,
        bytes: Six(mask, 0, 0, 0, 0, 0),
        time: 0,
        seconds: 0,
    }
}

fn timed(what: u8, a: Address, channel: u8, t: Time) -> Parts
    ensures { result ≡ timed what a channel t }
{
    Parts {
        what,
        address: a.0,
        channel,
        glow: 0,
        location: 0,
        bytes: Six(0, 0, 0, 0, 0, 0),
        time: time_number(t),
        seconds: time_seconds(t),
    }
}

// The number of a type frame's message, by the type that stands in it, for each shape.
fn long_number(kind: u8) -> u8
    ensures { result ≡ number_in long_types kind }
{
    match kind {
        LONG_TYPE => 1,
        _ => NO_MESSAGE,
    }
}

fn short_number(kind: u8) -> u8
    ensures { result ≡ number_in short_types kind }
{
    match kind {
        ONE_BLIND => 2,
        TWO_BLINDS => 25,
        _ => NO_MESSAGE,
    }
}

fn command_parts(a: Address, m: Command) -> Parts
    ensures { result ≡ command_parts a m }
{
    match m {
        Command::TypeLong(k, b, c, d, e, f) => free(long_number(k), a, Six(b, c, d, e, f, 0)),
        Command::TypeShort(k, b, c, d) => free(short_number(k), a, Six(b, c, d, 0, 0, 0)),
        Command::Buttons(b, c, d) => free(3, a, Six(b, c, d, 0, 0, 0)),
        Command::CellTold(l, v) => located(4, a, l, Six(v, 0, 0, 0, 0, 0)),
        Command::BlockTold(l, b, c, d, e) => located(5, a, l, Six(b, c, d, e, 0, 0)),
        Command::CellAsked(l) => located(6, a, l, Six(0, 0, 0, 0, 0, 0)),
        Command::BlockAsked(l) => located(7, a, l, Six(0, 0, 0, 0, 0, 0)),
        Command::DumpAsked => free(8, a, Six(0, 0, 0, 0, 0, 0)),
        Command::CellSet(l, v) => located(9, a, l, Six(v, 0, 0, 0, 0, 0)),
        Command::BlockSet(l, b, c, d, e) => located(10, a, l, Six(b, c, d, e, 0, 0)),
        Command::Errors(b, c, d) => free(11, a, Six(b, c, d, 0, 0, 0)),
        Command::ErrorsAsked => free(12, a, Six(0, 0, 0, 0, 0, 0)),
        Command::NameOne(n, b, c, d, e, f, g) => channelled(13, a, n, Six(b, c, d, e, f, g)),
        Command::NameTwo(n, b, c, d, e, f, g) => channelled(14, a, n, Six(b, c, d, e, f, g)),
        Command::NameThree(n, b, c, d, e) => channelled(15, a, n, Six(b, c, d, e, 0, 0)),
        Command::NameAsked(n) => channelled(16, a, n, Six(0, 0, 0, 0, 0, 0)),
        Command::StatusAsked(n) => channelled(17, a, n, Six(0, 0, 0, 0, 0, 0)),
        Command::InputStatus(b, c, d, e) => free(18, a, Six(b, c, d, e, 0, 0)),
        Command::LedsAll(b, c, d) => free(19, a, Six(b, c, d, 0, 0, 0)),
        Command::Leds(g, mask) => glowing(20, a, g, mask),
        Command::BlindStatus(n, b, c, d, e, f, g) => channelled(21, a, n, Six(b, c, d, e, f, g)),
        Command::BlindStop(n) => channelled(22, a, n, Six(0, 0, 0, 0, 0, 0)),
        Command::BlindUp(n, t) => timed(23, a, n, t),
        Command::BlindDown(n, t) => timed(24, a, n, t),
    }
}

pub fn parts_of(a: Address, m: Message) -> Parts
    ensures { result ≡ parts_of a m }
{
    match m {
        Message::TypeRequest => free(0, a, Six(0, 0, 0, 0, 0, 0)),
        Message::Tells(c) => command_parts(a, c),
    }
}

// The command that has this number, made of the parts that it has; `held_by` tests that no others stand there.
fn command_from(p: Parts) -> Command
    ensures { result ≡ command_from p }
{
    let s = p.bytes;
    let l = Location(p.location);
    let t = time_from(p.time, p.seconds);
    let g = glow_from(p.glow);
    let what = p.what;
    match what {
        1 => Command::TypeLong(LONG_TYPE, s.0, s.1, s.2, s.3, s.4),
        2 => Command::TypeShort(ONE_BLIND, s.0, s.1, s.2),
        3 => Command::Buttons(s.0, s.1, s.2),
        4 => Command::CellTold(l, s.0),
        5 => Command::BlockTold(l, s.0, s.1, s.2, s.3),
        6 => Command::CellAsked(l),
        7 => Command::BlockAsked(l),
        8 => Command::DumpAsked,
        9 => Command::CellSet(l, s.0),
        10 => Command::BlockSet(l, s.0, s.1, s.2, s.3),
        11 => Command::Errors(s.0, s.1, s.2),
        12 => Command::ErrorsAsked,
        13 => Command::NameOne(p.channel, s.0, s.1, s.2, s.3, s.4, s.5),
        14 => Command::NameTwo(p.channel, s.0, s.1, s.2, s.3, s.4, s.5),
        15 => Command::NameThree(p.channel, s.0, s.1, s.2, s.3),
        16 => Command::NameAsked(p.channel),
        17 => Command::StatusAsked(p.channel),
        18 => Command::InputStatus(s.0, s.1, s.2, s.3),
        19 => Command::LedsAll(s.0, s.1, s.2),
        20 => Command::Leds(g, s.0),
        21 => Command::BlindStatus(p.channel, s.0, s.1, s.2, s.3, s.4, s.5),
        22 => Command::BlindStop(p.channel),
        23 => Command::BlindUp(p.channel, t),
        24 => Command::BlindDown(p.channel, t),
        25 => Command::TypeShort(TWO_BLINDS, s.0, s.1, s.2),
        _ => Command::DumpAsked,
    }
}

fn message_from(p: Parts) -> Message
    ensures { result ≡ message_from p }
{
    if p.what == 0 {
        Message::TypeRequest
    } else {
        Message::Tells(command_from(p))
    }
}

// Parts are a message where they are just the parts of one.
pub fn held_by(p: Parts) -> Option<(Address, Message)>
    ensures { result ≡ held_by p }
{
    let a = Address(p.address);
    let m = message_from(p);
    if parts_of(a, m) == p {
        Some((a, m))
    } else {
        None
    }
}
