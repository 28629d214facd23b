// The reader of records: the record at an offset, the quick way where there is room.
ghost use Rattle.std.specs.Prelude.{◌≡◌, ◌+◌, leb, length};
ghost use Rattle.recording.specs.Limits.{longest};
ghost use Rattle.recording.specs.Record.{told, read_record};

use crate::quick::quick_record;
use recording::{Fault, LONGEST, Record, read_any};

// Whether the longest record has room at `at`.
fn has_room(s: &[u8], at: usize) -> bool
    ensures { result ≡ leb (at + longest) (length s.now) }
{
    if s.len() < at {
        return false;
    }
    if s.len() - at < LONGEST {
        return false;
    }
    true
}

// What stands at `at`: a record by the quick way where that leads to one, else what the general way finds.
pub fn read_record(s: &[u8], at: usize) -> Result<Option<Record>, Fault>
    ensures { told result ≡ read_record s.now at }
{
    if has_room(s, at) {
        if let Some(record) = quick_record(s, at) {
            return Ok(Some(record));
        }
    }
    read_any(s, at)
}
