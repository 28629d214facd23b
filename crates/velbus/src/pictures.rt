// The picture: hearing, stepping back and asking.
ghost use Rattle.std.specs.Prelude.{◌≡◌, []};
ghost use Rattle.shape.specs.Layout.{size};
ghost use Rattle.picture.specs.Hearing.{hearing};
ghost use Rattle.stores.specs.Stepping.{stepping_back};
ghost use Rattle.steering.specs.Fresh.{freshening_with, freshening};
ghost use Rattle.questions.specs.Question.{type_of, build_year, build_week, cell, led, blind, name_bytes, memory_bytes};
ghost use Rattle.questions.specs.Replies.{kept_answer, listing, reply};
ghost use Rattle.results.specs.Words.{outcome_word, answer_word};

use crate::codes::by_code;
use questions::{AddressAsked, LocationAsked};
use results::{answer_word, filled_word, outcome_word, value_word};

pub fn velbus_picture_size() -> u32
    ensures { result ≡ size }
{
    picture::SIZE as u32
}

pub fn velbus_fresh(picture: &mut [u8]) -> u32
    ensures value { result ≡ outcome_word (freshening picture.old).outcome }
    ensures picture_after { picture.new ≡ (freshening picture.old).buffer }
{
    outcome_word(by_code(picture::fresh(picture)))
}

pub fn velbus_fresh_depth(picture: &mut [u8], depth: u32) -> u32
    ensures value { result ≡ outcome_word (freshening_with picture.old depth).outcome }
    ensures picture_after { picture.new ≡ (freshening_with picture.old depth).buffer }
{
    outcome_word(by_code(picture::fresh_with(picture, depth)))
}

pub fn velbus_hear(picture: &mut [u8], identifier: u32, remote: u32, data: &[u8]) -> u32
    ensures value { result ≡ outcome_word (hearing picture.old identifier remote «data».now).outcome }
    ensures picture_after { picture.new ≡ (hearing picture.old identifier remote «data».now).buffer }
{
    outcome_word(by_code(picture::hear(picture, identifier, remote, data)))
}

pub fn velbus_step_back(picture: &mut [u8]) -> u32
    ensures value { result ≡ outcome_word (stepping_back picture.old).outcome }
    ensures picture_after { picture.new ≡ (stepping_back picture.old).buffer }
{
    outcome_word(by_code(picture::step_back(picture)))
}

pub fn velbus_kept(picture: &[u8]) -> u32
    ensures { result ≡ answer_word (kept_answer picture.now) }
{
    value_word(questions::kept(picture))
}

pub fn velbus_listed(picture: &[u8], out: &mut [u8]) -> u32
    ensures value { result ≡ answer_word (listing picture.now out.old).answer }
    ensures out_after { out.new ≡ (listing picture.now out.old).buffer }
{
    filled_word(questions::listed(picture, out))
}

pub fn velbus_type(picture: &[u8], address: u32) -> u32
    ensures { result ≡ answer_word (reply picture.now address type_of []).answer }
{
    value_word(questions::type_of(picture, AddressAsked(address)))
}

pub fn velbus_build_year(picture: &[u8], address: u32) -> u32
    ensures { result ≡ answer_word (reply picture.now address build_year []).answer }
{
    answer_word(by_code(questions::build_year(picture, AddressAsked(address))))
}

pub fn velbus_build_week(picture: &[u8], address: u32) -> u32
    ensures { result ≡ answer_word (reply picture.now address build_week []).answer }
{
    answer_word(by_code(questions::build_week(picture, AddressAsked(address))))
}

pub fn velbus_cell(picture: &[u8], address: u32, location: u32) -> u32
    ensures { result ≡ answer_word (reply picture.now address (cell location) []).answer }
{
    answer_word(by_code(questions::cell(picture, AddressAsked(address), LocationAsked(location))))
}

pub fn velbus_led(picture: &[u8], address: u32, number: u32) -> u32
    ensures { result ≡ answer_word (reply picture.now address (led number) []).answer }
{
    answer_word(by_code(questions::led(picture, AddressAsked(address), number)))
}

pub fn velbus_blind(picture: &[u8], address: u32, number: u32) -> u32
    ensures { result ≡ answer_word (reply picture.now address (blind number) []).answer }
{
    answer_word(by_code(questions::blind(picture, AddressAsked(address), number)))
}

pub fn velbus_name(picture: &[u8], address: u32, name: u32, out: &mut [u8]) -> u32
    ensures value { result ≡ answer_word (reply picture.now address (name_bytes name) out.old).answer }
    ensures out_after { out.new ≡ (reply picture.now address (name_bytes name) out.old).buffer }
{
    value_word(questions::name_bytes(picture, AddressAsked(address), name, out))
}

pub fn velbus_memory_row(picture: &[u8], address: u32, out: &mut [u8]) -> u32
    ensures value { result ≡ answer_word (reply picture.now address memory_bytes out.old).answer }
    ensures out_after { out.new ≡ (reply picture.now address memory_bytes out.old).buffer }
{
    filled_word(questions::memory_bytes(picture, AddressAsked(address), out))
}
