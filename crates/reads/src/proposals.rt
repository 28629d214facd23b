// A proposed plan against a cell, and against the starts that are allowed.
ghost use Rattle.std.specs.Prelude.{◌≡◌};
ghost use Rattle.reads.specs.Judging.{all_legal, reads, read_by, missed};

use crate::blocks::{BLOCK, last_start};
use shape::NOT_HEARD;

// Whether each start is allowed on a module of so many cells.
pub fn all_legal(cells: usize, starts: &[u16]) -> bool
    ensures { result ≡ all_legal cells starts.now }
{
    let last = last_start(cells);
    starts.iter().all(|start| *start as usize <= last)
}

// Whether a block read at start reads the cell.
fn reads_cell(start: usize, cell: usize) -> bool
    ensures { result ≡ reads start cell }
{
    start <= cell && cell - start < BLOCK
}

// Whether one of the reads reads the cell.
fn read_by(starts: &[u16], cell: usize) -> bool
    ensures { result ≡ read_by starts.now cell }
{
    starts.iter().any(|start| reads_cell(*start as usize, cell))
}

// Whether a cell with this value is unknown and none of the reads reads it.
pub fn is_missed(starts: &[u16], cell: usize, value: u16) -> bool
    ensures { result ≡ missed starts.now cell value }
{
    value == NOT_HEARD && !read_by(starts, cell)
}
