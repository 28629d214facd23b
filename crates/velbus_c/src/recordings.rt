// Records put into a lent buffer.
ghost use Rattle.std.specs.Prelude.{◌≡◌};
ghost use Rattle.recorder.specs.Write.{put_answer, put_bytes};
ghost use Rattle.velbus.specs.Recordings.{put_word};

#[unsafe(no_mangle)]
pub extern "C" fn velbus_put_record(
    buffer: &mut [u8],
    at: usize,
    gap: u64,
    identifier: u32,
    remote: u32,
    data: &[u8],
) -> u32
    ensures value { result ≡ put_word (put_answer buffer.old at gap identifier remote «data».now) }
    ensures buffer_after { buffer.new ≡ put_bytes buffer.old at gap identifier remote «data».now }
{
    velbus::velbus_put_record(buffer, at, gap, identifier, remote, data)
}
