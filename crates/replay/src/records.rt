// Hearing the records of a slice.
ghost use Rattle.std.specs.Prelude.{◌≡◌, ◌+◌, ◌-◌, ◌<◌};
ghost use Rattle.replay.specs.Replay.{one, is_done, heard_by, replayed, told_replay, told_replayed, replay_answer, replay_picture};

use laws::Refusal;
use recording::Fault;
use shape::SIZE;

// The records accepted and refused, the offset of the first byte that is not read as a record, and the fault there, where the slice does
// not end.
#[derive(Clone, Copy, Debug, PartialEq, Eq)]
pub struct Replay {
    pub heard: u64,
    pub refused: u64,
    pub at: usize,
    pub fault: Option<Fault>,
}

// Hears a frame, and counts it where it is refused.
fn hear_one(picture: &mut [u8], identifier: u32, remote: u32, data: &[u8], refused: u64) -> u64
    requires { refused < 18446744073709551615 }
    ensures value { result ≡ refused + (1 - one (heard_by picture.old identifier remote «data».now).accepted) }
    ensures picture_after { picture.new ≡ (heard_by picture.old identifier remote «data».now).picture }
{
    match picture::hear(picture, identifier, remote, data) {
        Ok(()) => refused,
        Err(_) => refused + 1,
    }
}

// Hears every record of s, in order, up to its end or to a fault.
pub fn hear_records(picture: &mut [u8], s: &[u8]) -> Replay
    ensures value { told_replay result ≡ (replayed heard_by picture.old s.now).replay }
    ensures picture_after { picture.new ≡ (replayed heard_by picture.old s.now).picture }
{
    let mut records: u64 = 0;
    let mut refused: u64 = 0;
    let mut at: usize = 0;
    // A loop, since where the next record begins is told by the one before: a count of turns would be no plainer.
    loop {
        match quick::read_record(s, at) {
            Ok(Some(record)) => {
                let data = &s[record.start..record.start + record.len];
                records += 1;
                refused = hear_one(picture, record.identifier, record.remote, data, refused);
                at = record.next;
            }
            Ok(None) => {
                return Replay {
                    heard: records - refused,
                    refused,
                    at,
                    fault: None,
                };
            }
            Err(fault) => {
                return Replay {
                    heard: records - refused,
                    refused,
                    at,
                    fault: Some(fault),
                };
            }
        }
    }
}

// Hears a whole recording.
pub fn hear_all(picture: &mut [u8], s: &[u8]) -> Result<Replay, Refusal>
    ensures value { told_replayed result ≡ replay_answer picture.old s.now }
    ensures picture_after { picture.new ≡ replay_picture picture.old s.now }
{
    if picture.len() < SIZE {
        return Err(Refusal::TooShort);
    }
    Ok(hear_records(picture, s))
}
