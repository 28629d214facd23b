// Which fields of a message are allowed, by the module's type: the rules that the reader goes by too.
ghost use Rattle.std.specs.Prelude.{◌≡◌};
ghost use Rattle.laws.specs.Codes.{code_in};
ghost use Rattle.fields.specs.Fields.{fault, field_refusal};

use fields::{
    blind_status_fault, block_fault, buttons_fault, cell_fault, channel_fault, last_part_fault,
    name_asked_fault, status_asked_fault, stop_fault, timed_fault, type_short_fault,
};
use frame::Command;
use laws::{Refusal, wide32};

// Where a field is not allowed, 9 with the number of the first data byte at fault.
pub fn fault_of(kind: u32, m: Command) -> Result<(), Refusal>
    ensures { code_in result ≡ field_refusal (fault kind m) }
{
    match m {
        Command::TypeLong(_, _, _, _, _, _) => Ok(()),
        Command::TypeShort(k, timeouts, _, _) => type_short_fault(wide32(k), timeouts),
        Command::Buttons(a, b, c) => buttons_fault(kind, a, b, c),
        Command::CellTold(l, _) => cell_fault(kind, l),
        Command::BlockTold(l, _, _, _, _) => block_fault(kind, l),
        Command::CellAsked(l) => cell_fault(kind, l),
        Command::BlockAsked(l) => block_fault(kind, l),
        Command::DumpAsked => Ok(()),
        Command::CellSet(l, _) => cell_fault(kind, l),
        Command::BlockSet(l, _, _, _, _) => block_fault(kind, l),
        Command::Errors(_, _, _) => Ok(()),
        Command::ErrorsAsked => Ok(()),
        Command::NameOne(n, _, _, _, _, _, _) => channel_fault(kind, n),
        Command::NameTwo(n, _, _, _, _, _, _) => channel_fault(kind, n),
        Command::NameThree(n, _, _, _, last) => last_part_fault(kind, n, last),
        Command::NameAsked(n) => name_asked_fault(kind, n),
        Command::StatusAsked(n) => status_asked_fault(kind, n),
        Command::InputStatus(_, _, _, _) => Ok(()),
        Command::LedsAll(_, _, _) => Ok(()),
        Command::Leds(_, _) => Ok(()),
        Command::BlindStatus(n, a, b, c, _, _, _) => blind_status_fault(kind, n, a, b, c),
        Command::BlindStop(n) => stop_fault(kind, n),
        Command::BlindUp(n, t) => timed_fault(kind, n, t),
        Command::BlindDown(n, t) => timed_fault(kind, n, t),
    }
}
