// What the listing counts of a module: its whole names, and its told cells.
ghost use Rattle.std.specs.Prelude.{◌≡◌, ◌+◌, ◌≤◌, eqb, length, get_or};
ghost use Rattle.places.specs.Places.{name_length};
ghost use Rattle.questions.specs.Fills.{sum_to};
ghost use Rattle.replay.specs.Replay.{one};
ghost use Rattle.texts.specs.Sheets.{whole_name, told_number, whole_names, told_cells};

use questions::AddressAsked;
use shape::NOT_HEARD;

// The length of a name.
const NAME_LENGTH: usize = places::NAME_LENGTH as usize;

// 1 for a count of heard characters that is a name's whole length, else 0.
fn all_heard(count: u16) -> u64
    ensures { result ≡ one (eqb count name_length) }
{
    if count as usize == NAME_LENGTH { 1 } else { 0 }
}

// 1 for a name that is whole, else 0.
fn whole_name(picture: &[u8], address: u32, name: u32) -> u64
    ensures { result ≡ whole_name picture.now address name }
{
    let mut row = [0u16; NAME_LENGTH];
    match questions::name(picture, AddressAsked(address), name, &mut row) {
        Ok(count) => all_heard(count),
        Err(_) => 0,
    }
}

// 1 for the number of a place that is told, else 0.
fn told(number: u16) -> u64
    ensures { (result ≡ told_number number) × (result ≤ 1) }
{
    if number == NOT_HEARD { 0 } else { 1 }
}

// Of the first n numbers of a row, how many are told.
fn told_in(row: &[u16], n: usize) -> u64
    requires { n ≤ length row.now }
    ensures { result ≡ sum_to (λ i. told_number (get_or row.now i 0)) n }
{
    let mut count: u64 = 0;
    for number in &row[..n] {
        count += told(*number);
    }
    count
}

// Of the names 1 to n, how many are whole.
pub fn whole_names(picture: &[u8], address: u32, n: u32) -> u64
    ensures { result ≡ whole_names picture.now address n }
{
    let mut count: u64 = 0;
    for i in 0..n {
        count += whole_name(picture, address, i + 1);
    }
    count
}

// Of the cells below n, how many are told. The row begins as not heard, so that a refused question counts none.
pub(crate) fn told_cells(picture: &[u8], address: u32, n: u32) -> u64
    requires { n ≤ 256 }
    ensures { result ≡ told_cells picture.now address n }
{
    let mut row: [u16; 256] = [NOT_HEARD; 256];
    let _refused = questions::memory_row(picture, AddressAsked(address), &mut row);
    told_in(&row, n as usize)
}
