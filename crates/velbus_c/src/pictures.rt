// The picture: hearing, stepping back and asking.
ghost use Rattle.std.specs.Prelude.{◌≡◌, []};
ghost use Rattle.shape.specs.Layout.{size};
ghost use Rattle.picture.specs.Hearing.{hearing};
ghost use Rattle.stores.specs.Stepping.{stepping_back};
ghost use Rattle.steering.specs.Fresh.{freshening_with, freshening};
ghost use Rattle.questions.specs.Question.{type_of, build_year, build_week, cell, led, blind, name_bytes, memory_bytes};
ghost use Rattle.questions.specs.Replies.{kept_answer, listing, reply};
ghost use Rattle.results.specs.Words.{outcome_word, answer_word};

#[unsafe(no_mangle)]
pub extern "C" fn velbus_picture_size() -> u32
    ensures { result ≡ size }
{
    velbus::velbus_picture_size()
}

#[unsafe(no_mangle)]
pub extern "C" fn velbus_fresh(picture: &mut [u8]) -> u32
    ensures value { result ≡ outcome_word (freshening picture.old).outcome }
    ensures picture_after { picture.new ≡ (freshening picture.old).buffer }
{
    velbus::velbus_fresh(picture)
}

#[unsafe(no_mangle)]
pub extern "C" fn velbus_fresh_depth(picture: &mut [u8], depth: u32) -> u32
    ensures value { result ≡ outcome_word (freshening_with picture.old depth).outcome }
    ensures picture_after { picture.new ≡ (freshening_with picture.old depth).buffer }
{
    velbus::velbus_fresh_depth(picture, depth)
}

#[unsafe(no_mangle)]
pub extern "C" fn velbus_hear(picture: &mut [u8], identifier: u32, remote: u32, data: &[u8]) -> u32
    ensures value { result ≡ outcome_word (hearing picture.old identifier remote «data».now).outcome }
    ensures picture_after { picture.new ≡ (hearing picture.old identifier remote «data».now).buffer }
{
    velbus::velbus_hear(picture, identifier, remote, data)
}

#[unsafe(no_mangle)]
pub extern "C" fn velbus_step_back(picture: &mut [u8]) -> u32
    ensures value { result ≡ outcome_word (stepping_back picture.old).outcome }
    ensures picture_after { picture.new ≡ (stepping_back picture.old).buffer }
{
    velbus::velbus_step_back(picture)
}

#[unsafe(no_mangle)]
pub extern "C" fn velbus_kept(picture: &[u8]) -> u32
    ensures { result ≡ answer_word (kept_answer picture.now) }
{
    velbus::velbus_kept(picture)
}

#[unsafe(no_mangle)]
pub extern "C" fn velbus_listed(picture: &[u8], out: &mut [u8]) -> u32
    ensures value { result ≡ answer_word (listing picture.now out.old).answer }
    ensures out_after { out.new ≡ (listing picture.now out.old).buffer }
{
    velbus::velbus_listed(picture, out)
}

#[unsafe(no_mangle)]
pub extern "C" fn velbus_type(picture: &[u8], address: u32) -> u32
    ensures { result ≡ answer_word (reply picture.now address type_of []).answer }
{
    velbus::velbus_type(picture, address)
}

#[unsafe(no_mangle)]
pub extern "C" fn velbus_build_year(picture: &[u8], address: u32) -> u32
    ensures { result ≡ answer_word (reply picture.now address build_year []).answer }
{
    velbus::velbus_build_year(picture, address)
}

#[unsafe(no_mangle)]
pub extern "C" fn velbus_build_week(picture: &[u8], address: u32) -> u32
    ensures { result ≡ answer_word (reply picture.now address build_week []).answer }
{
    velbus::velbus_build_week(picture, address)
}

#[unsafe(no_mangle)]
pub extern "C" fn velbus_cell(picture: &[u8], address: u32, location: u32) -> u32
    ensures { result ≡ answer_word (reply picture.now address (cell location) []).answer }
{
    velbus::velbus_cell(picture, address, location)
}

#[unsafe(no_mangle)]
pub extern "C" fn velbus_led(picture: &[u8], address: u32, number: u32) -> u32
    ensures { result ≡ answer_word (reply picture.now address (led number) []).answer }
{
    velbus::velbus_led(picture, address, number)
}

#[unsafe(no_mangle)]
pub extern "C" fn velbus_blind(picture: &[u8], address: u32, number: u32) -> u32
    ensures { result ≡ answer_word (reply picture.now address (blind number) []).answer }
{
    velbus::velbus_blind(picture, address, number)
}

#[unsafe(no_mangle)]
pub extern "C" fn velbus_name(picture: &[u8], address: u32, name: u32, out: &mut [u8]) -> u32
    ensures value { result ≡ answer_word (reply picture.now address (name_bytes name) out.old).answer }
    ensures out_after { out.new ≡ (reply picture.now address (name_bytes name) out.old).buffer }
{
    velbus::velbus_name(picture, address, name, out)
}

#[unsafe(no_mangle)]
pub extern "C" fn velbus_memory_row(picture: &[u8], address: u32, out: &mut [u8]) -> u32
    ensures value { result ≡ answer_word (reply picture.now address memory_bytes out.old).answer }
    ensures out_after { out.new ≡ (reply picture.now address memory_bytes out.old).buffer }
{
    velbus::velbus_memory_row(picture, address, out)
}
