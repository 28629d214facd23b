// The cells of a module where they lie in a picture: so many neighbouring places, the first of which is at `at`.
ghost use Rattle.std.specs.Prelude.{◌≡◌, true, ◌+◌, ◌*◌, ◌<◌, ◌≤◌, length, get_or, drop};
ghost use Rattle.places.specs.Places.{cell_row};
ghost use Rattle.shape.specs.Limits.{not_heard};
ghost use Rattle.shape.specs.Layout.{place_at};
ghost use Rattle.shape.specs.Head.{kind_in};
ghost use Rattle.questions.specs.Fills.{value_at};
ghost use Rattle.reads.specs.Reads.{block};
ghost use Rattle.reads.specs.Plan.{next_unknown, least_reads};
ghost use Rattle.plan.specs.Replies.{row_at};

use laws::number16;
use questions::first_cell;
use reads::{BLOCK, start_for};
use shape::{NOT_HEARD, place_at};

// Where the first cell of the module in a slot lies.
pub(crate) fn memory_at(picture: &[u8], slot: u8) -> usize
    ensures { result ≡ place_at slot (cell_row (kind_in picture.now slot)).start }
{
    place_at(slot, first_cell(picture, slot))
}

// The two bytes of a place as one number.
pub(crate) fn number_at(picture: &[u8], at: usize) -> u16
    requires { at + 2 ≤ length picture.now }
    ensures { result ≡ value_at picture.now at }
{
    number16(picture[at], picture[at + 1])
}

// The lowest unknown cell from `from` on; a cell past the last where there is none.
pub(crate) fn next_unknown(picture: &[u8], at: usize, cells: usize, from: usize) -> usize
    requires { at + 2 * cells ≤ length picture.now }
    ensures { result ≡ next_unknown from (drop from (row_at picture.now at cells)) }
{
    for cell in from..cells {
        if number_at(picture, at + 2 * cell) == NOT_HEARD {
            return cell;
        }
    }
    cells.max(from)
}

// Whether the three cells after the one at `at` are all told: then their high bytes are 0. One load for each is cheaper than a number of two bytes.
fn three_told(picture: &[u8], at: usize) -> bool
    requires { at + 8 ≤ length picture.now }
    ensures { result ≡ true → (get_or picture.now (at + 3) 0 ≡ 0) × (get_or picture.now (at + 5) 0 ≡ 0) × (get_or picture.now (at + 7) 0 ≡ 0) }
{
    let second = picture[at + 3];
    let third = picture[at + 5];
    let fourth = picture[at + 7];
    if second != 0 {
        return false;
    }
    if third != 0 {
        return false;
    }
    if fourth != 0 {
        return false;
    }
    true
}

// A cell past a known one, with no unknown cell between: four cells on where all of these are told, else the next unknown one.
pub(crate) fn past_known(picture: &[u8], at: usize, cells: usize, cell: usize) -> usize
    requires { (at + 2 * cells ≤ length picture.now) × (cell + block ≤ cells) × (value_at picture.now (at + 2 * cell) ≡ not_heard → ⊥) }
    ensures lower_bound { (cell < result) × (result ≤ cells) }
    ensures cells_value { next_unknown cell (drop cell (row_at picture.now at cells)) ≡ next_unknown result (drop result (row_at picture.now at cells)) }
{
    if three_told(picture, at + 2 * cell) {
        return cell + BLOCK;
    }
    next_unknown(picture, at, cells, cell + 1)
}

// How many reads the plan holds: the least number that will do.
pub(crate) fn least(picture: &[u8], at: usize, cells: usize) -> usize
    requires { at + 2 * cells ≤ length picture.now }
    ensures { result ≡ least_reads (row_at picture.now at cells) }
{
    let mut count: usize = 0;
    let mut cell = next_unknown(picture, at, cells, 0);
    // A while: each read says from which cell on the next is looked for.
    while cell < cells {
        let start = start_for(cells, cell);
        count += 1;
        cell = next_unknown(picture, at, cells, start + BLOCK);
    }
    count
}
