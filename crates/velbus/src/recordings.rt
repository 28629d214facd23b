// Records put into a lent buffer.
ghost use Rattle.std.specs.Prelude.{◌≡◌};
ghost use Rattle.laws.specs.Codes.{coded};
ghost use Rattle.recorder.specs.Write.{put_answer, put_bytes};
ghost use Rattle.velbus.specs.Recordings.{put_word};

use laws::Refusal;
use results::refused;

fn put_word(put: Result<usize, Refusal>) -> u32
    ensures { result ≡ put_word (coded put) }
{
    match put {
        Ok(count) => (count % 65536) as u32,
        Err(refusal) => refused(refusal.code()),
    }
}

pub fn velbus_put_record(
    buffer: &mut [u8],
    at: usize,
    gap: u64,
    identifier: u32,
    remote: u32,
    data: &[u8],
) -> u32
    ensures value { result ≡ put_word (put_answer buffer.old at gap identifier remote «data».now) }
    ensures buffer_after { buffer.new ≡ put_bytes buffer.old at gap identifier remote «data».now }
{
    put_word(recorder::put_record(buffer, at, gap, identifier, remote, data))
}
