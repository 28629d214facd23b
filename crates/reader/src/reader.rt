// The reader: a frame's message with its address, or the first refusal in document 01's order.
ghost use Rattle.std.specs.Prelude.{◌≡◌};
ghost use Rattle.laws.specs.Codes.{coded};
ghost use Rattle.frame.specs.Bytes.{data_of, bytes_of};
ghost use Rattle.frame.specs.Messages.{decode};
ghost use Rattle.judging.specs.Reading.{reading};

use decoding::decoded;
use frame::{Address, Message, address_of, gathered};
use judging::judge;
use laws::Refusal;

// The message of a frame with data.
fn command_told(data: &[u8]) -> Message
    ensures { result ≡ Message.Tells (decode (bytes_of (data_of «data».now))) }
{
    Message::Tells(decoded(gathered(data)))
}

pub fn read(
    kind: u32,
    identifier: u32,
    remote: u32,
    data: &[u8],
) -> Result<(Address, Message), Refusal>
    ensures { coded result ≡ reading kind identifier remote «data».now }
{
    judge(kind, identifier, remote, data)?;
    let address = address_of(identifier);
    if remote == 1 {
        Ok((address, Message::TypeRequest))
    } else {
        Ok((address, command_told(data)))
    }
}
