// Frames read into a lent message, and messages written into a lent frame.
ghost use Rattle.std.specs.Prelude.{◌≡◌, length};
ghost use Rattle.judging.specs.Reading.{reading};
ghost use Rattle.velbus.specs.Frames.{read_word, read_into, write_word, write_into};

#[unsafe(no_mangle)]
pub extern "C" fn velbus_read(
    kind: u32,
    identifier: u32,
    remote: u32,
    data: &[u8],
    message: &mut [u8],
) -> u32
    ensures value { result ≡ read_word (reading kind identifier remote «data».now) (length message.old) }
    ensures message_after { message.new ≡ read_into (reading kind identifier remote «data».now) message.old }
{
    velbus::velbus_read(kind, identifier, remote, data, message)
}

#[unsafe(no_mangle)]
pub extern "C" fn velbus_write(kind: u32, message: &[u8], out: &mut [u8]) -> u32
    ensures value { result ≡ write_word kind message.now (length out.old) }
    ensures out_after { out.new ≡ write_into kind message.now out.old }
{
    velbus::velbus_write(kind, message, out)
}
