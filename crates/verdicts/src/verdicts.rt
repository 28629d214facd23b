// What the bench makes of a frame, before it looks at the room for its replies.
ghost use Rattle.std.specs.Prelude.{◌≡◌, cond, ◌&&◌, eqb, Ok, Err, None};
ghost use Rattle.laws.specs.Codes.{code_of, coded};
ghost use Rattle.laws.specs.Refusals.{not_listed};
ghost use Rattle.laws.specs.Tests.{among};
ghost use Rattle.shape.specs.Limits.{bus_address};
ghost use Rattle.verdicts.specs.Verdicts.{first_refusals, sent_only, judged_if, judged};

use frame::{Address, Message, address_of};
use kinds::VMB8IR;
use laws::{Refusal, byte_at};

// The reader's refusals that come before the address is looked at.
fn first_refusal(refusal: Refusal) -> bool
    ensures { result ≡ among (code_of refusal) first_refusals }
{
    match refusal {
        Refusal::BadIdentifier | Refusal::Sid0Set | Refusal::BadForm | Refusal::BadPriority => true,
        _ => false,
    }
}

// The commands that only a module sends.
fn sent_only(command: u8) -> bool
    ensures { result ≡ among command sent_only }
{
    match command {
        0x00 => true,
        0xFE => true,
        0xCC => true,
        0xDA => true,
        0xF0 => true,
        0xF1 => true,
        0xF2 => true,
        0xEB => true,
        0xFF => true,
        _ => false,
    }
}

// A frame with data whose command only a module sends.
fn backwards(remote: u32, command: u8) -> bool
    ensures { result ≡ eqb remote 0 && among command sent_only }
{
    if remote == 0 {
        sent_only(command)
    } else {
        false
    }
}

fn is_own(identifier: u32, address: u8) -> bool
    ensures { result ≡ eqb (bus_address identifier) address }
{
    let a = address_of(identifier);
    a.0 == address
}

// By the address and the command: another address is silent, a command that only a module sends is 6.
fn settled(
    own: bool,
    sent: bool,
    rest: Result<Option<Message>, Refusal>,
) -> Result<Option<Message>, Refusal>
    ensures { coded result ≡ cond own (cond sent (Err not_listed) (coded rest)) (Ok None) }
{
    if own {
        if sent { Err(Refusal::NotListed) } else { rest }
    } else {
        Ok(None)
    }
}

fn judge_by(
    read: Result<(Address, Message), Refusal>,
    own: bool,
    sent: bool,
) -> Result<Option<Message>, Refusal>
    ensures { coded result ≡ judged_if (coded read) own sent }
{
    match read {
        Ok((_, m)) => settled(own, sent, Ok(Some(m))),
        Err(refusal) => {
            if first_refusal(refusal) {
                Err(refusal)
            } else {
                settled(own, sent, Err(refusal))
            }
        }
    }
}

// The message, where the frame is taken; none, where it is for another address; or a refusal.
pub fn judge(
    address: u8,
    identifier: u32,
    remote: u32,
    data: &[u8],
) -> Result<Option<Message>, Refusal>
    ensures { coded result ≡ judged address identifier remote «data».now }
{
    let own = is_own(identifier, address);
    let sent = backwards(remote, byte_at(data, 0));
    judge_by(reader::read(VMB8IR, identifier, remote, data), own, sent)
}
