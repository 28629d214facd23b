// Where a block read may start.
ghost use Rattle.std.specs.Prelude.{◌≡◌};
ghost use Rattle.reads.specs.Reads.{last_start_of};
ghost use Rattle.reads.specs.Plan.{start_for};

// How many cells a block read reads.
pub const BLOCK: usize = 4;

// The last start allowed on a module of so many cells.
pub(crate) fn last_start(cells: usize) -> usize
    ensures { result ≡ last_start_of cells }
{
    if cells < BLOCK { 0 } else { cells - BLOCK }
}

// The start of the read that is made for an unknown cell.
pub fn start_for(cells: usize, cell: usize) -> usize
    ensures { result ≡ start_for cells cell }
{
    let last = last_start(cells);
    if last < cell { last } else { cell }
}
