// The replies to a command, written as frames of twelve bytes.
ghost use Rattle.std.specs.Prelude.{◌≡◌, List, [], ◌∷◌, ℕ, ◌≤◌, length};
ghost use Rattle.std.proofs.lemmas.List.Edits.{sets};
ghost use Rattle.laws.specs.Codes.{coded};
ghost use Rattle.replies.specs.Bench.{own_address};
ghost use Rattle.replies.specs.Replies.{block, blocks, dump, status, type_told, answers, replies};
ghost use Rattle.bench.specs.Sending.{written_bytes, reply_bytes, all_bytes};
ghost use Rattle.frame.specs.declared.messages.Command.TheVariants.{CellAsked, NameAsked};

use crate::bytes::put_bytes;
use codec::{FRAME_SIZE, Frame, frame_bytes};
use frame::{Address, Command, Location, Message};
use kinds::VMB8IR;
use laws::{Refusal, byte_at, wide16};
use replies::{
    ADDRESS_AT, block_told, cell_at, dump_block, name_cell, name_one, name_three, name_two,
    status_told, type_told,
};

// How many blocks of four all the cells are.
const BLOCKS: u8 = 64;

const DUMP_REPLIES: u16 = BLOCKS as u16;

// A frame's twelve bytes. The writer refuses no reply to a command that the bench takes.
fn written_bytes(written: Result<Frame, Refusal>) -> [u8; 12]
    ensures { result ≡ written_bytes (coded written) }
{
    match written {
        Ok(f) => frame_bytes(f),
        Err(_) => [0; 12],
    }
}

// One reply, from byte `at` of the buffer on.
fn put_reply(buffer: &mut [u8], at: u16, a: u8, m: Command)
    ensures { buffer.new ≡ sets buffer.old at (reply_bytes a m) }
{
    let bytes = written_bytes(codec::write(VMB8IR, Address(a), Message::Tells(m)));
    put_bytes(buffer, at as u32, &bytes);
}

fn put_one(buffer: &mut [u8], a: u8, m: Command)
    ensures { buffer.new ≡ sets buffer.old 0 (all_bytes a (m ∷ [])) }
{
    put_reply(buffer, 0, a, m);
}

fn put_three(buffer: &mut [u8], a: u8, x: Command, y: Command, z: Command)
    ensures { buffer.new ≡ sets buffer.old 0 (all_bytes a (x ∷ y ∷ z ∷ [])) }
{
    put_reply(buffer, 0, a, x);
    put_reply(buffer, FRAME_SIZE, a, y);
    put_reply(buffer, 2 * FRAME_SIZE, a, z);
}

fn put_name(bench: &[u8], a: u8, n: u8, buffer: &mut [u8])
    ensures { buffer.new ≡ sets buffer.old 0 (all_bytes a (answers bench.now (NameAsked n))) }
{
    let l = name_cell(n);
    let x = name_one(bench, n, l);
    let y = name_two(bench, n, l);
    let z = name_three(bench, n, l);
    put_three(buffer, a, x, y, z);
}

fn put_dump(bench: &[u8], a: u8, buffer: &mut [u8])
    ensures { buffer.new ≡ sets buffer.old 0 (all_bytes a (dump bench.now 0 blocks)) }
{
    for i in 0..BLOCKS {
        let m = dump_block(bench, i);
        put_reply(buffer, FRAME_SIZE * wide16(i), a, m);
    }
}

fn put_cell(bench: &[u8], a: u8, l: Location, buffer: &mut [u8])
    ensures { buffer.new ≡ sets buffer.old 0 (all_bytes a (answers bench.now (CellAsked l))) }
{
    let v = cell_at(bench, l);
    put_one(buffer, a, Command::CellTold(l, v));
}

fn put_block(bench: &[u8], a: u8, l: Location, buffer: &mut [u8])
    ensures { buffer.new ≡ sets buffer.old 0 (all_bytes a (block bench.now l.0 ∷ [])) }
{
    let m = block_told(bench, l);
    put_one(buffer, a, m);
}

fn put_status(bench: &[u8], a: u8, buffer: &mut [u8])
    ensures { buffer.new ≡ sets buffer.old 0 (all_bytes a (status bench.now ∷ [])) }
{
    let m = status_told(bench);
    put_one(buffer, a, m);
}

fn put_type(bench: &[u8], a: u8, buffer: &mut [u8])
    ensures { buffer.new ≡ sets buffer.old 0 (all_bytes a (type_told bench.now ∷ [])) }
{
    let m = type_told(bench);
    put_one(buffer, a, m);
}

fn answer(bench: &[u8], a: u8, m: Command, buffer: &mut [u8])
    ensures { buffer.new ≡ sets buffer.old 0 (all_bytes a (answers bench.now m)) }
{
    match m {
        Command::TypeLong(_, _, _, _, _, _) => {}
        Command::TypeShort(_, _, _, _) => {}
        Command::Buttons(_, _, _) => {}
        Command::CellTold(_, _) => {}
        Command::BlockTold(_, _, _, _, _) => {}
        Command::CellAsked(l) => put_cell(bench, a, l, buffer),
        Command::BlockAsked(l) => put_block(bench, a, l, buffer),
        Command::DumpAsked => put_dump(bench, a, buffer),
        Command::CellSet(_, _) => {}
        Command::BlockSet(l, _, _, _, _) => put_block(bench, a, l, buffer),
        Command::Errors(_, _, _) => {}
        Command::ErrorsAsked => put_one(buffer, a, Command::Errors(0, 0, 0)),
        Command::NameOne(_, _, _, _, _, _, _) => {}
        Command::NameTwo(_, _, _, _, _, _, _) => {}
        Command::NameThree(_, _, _, _, _) => {}
        Command::NameAsked(n) => put_name(bench, a, n, buffer),
        Command::StatusAsked(_) => put_status(bench, a, buffer),
        Command::InputStatus(_, _, _, _) => {}
        Command::LedsAll(_, _, _) => {}
        Command::Leds(_, _) => {}
        Command::BlindStatus(_, _, _, _, _, _, _) => {}
        Command::BlindStop(_) => {}
        Command::BlindUp(_, _) => {}
        Command::BlindDown(_, _) => {}
    }
}

// All the replies of the bench to a message, in order, from the start of the buffer.
pub fn reply(bench: &[u8], m: Message, buffer: &mut [u8])
    ensures { buffer.new ≡ sets buffer.old 0 (all_bytes (own_address bench.now) (replies bench.now m)) }
{
    let a = byte_at(bench, ADDRESS_AT);
    match m {
        Message::TypeRequest => put_type(bench, a, buffer),
        Message::Tells(c) => answer(bench, a, c, buffer),
    }
}

fn answer_count(m: Command) -> u16
    ensures by_index { (b : List ℕ) → result ≡ length (answers b m) }
    ensures upper_bound { result ≤ blocks }
{
    match m {
        Command::TypeLong(_, _, _, _, _, _) => 0,
        Command::TypeShort(_, _, _, _) => 0,
        Command::Buttons(_, _, _) => 0,
        Command::CellTold(_, _) => 0,
        Command::BlockTold(_, _, _, _, _) => 0,
        Command::CellAsked(_) => 1,
        Command::BlockAsked(_) => 1,
        Command::DumpAsked => DUMP_REPLIES,
        Command::CellSet(_, _) => 0,
        Command::BlockSet(_, _, _, _, _) => 1,
        Command::Errors(_, _, _) => 0,
        Command::ErrorsAsked => 1,
        Command::NameOne(_, _, _, _, _, _, _) => 0,
        Command::NameTwo(_, _, _, _, _, _, _) => 0,
        Command::NameThree(_, _, _, _, _) => 0,
        Command::NameAsked(_) => 3,
        Command::StatusAsked(_) => 1,
        Command::InputStatus(_, _, _, _) => 0,
        Command::LedsAll(_, _, _) => 0,
        Command::Leds(_, _) => 0,
        Command::BlindStatus(_, _, _, _, _, _, _) => 0,
        Command::BlindStop(_) => 0,
        Command::BlindUp(_, _) => 0,
        Command::BlindDown(_, _) => 0,
    }
}

// How many replies a message gets, whatever the bench holds.
pub fn reply_count(m: Message) -> u16
    ensures by_index { (b : List ℕ) → result ≡ length (replies b m) }
    ensures upper_bound { result ≤ blocks }
{
    match m {
        Message::TypeRequest => 1,
        Message::Tells(c) => answer_count(c),
    }
}
