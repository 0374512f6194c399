// One side of the grid: a cell for each rank, best first, and a bit for each cell that says whether it holds a level.
ghost use Rattle.std.specs.Prelude.{◌≡◌, ◌*◌, ◌≤◌, ◌==◌, not, length, drop, position, replicate, slice_set};
ghost use Rattle.grid.specs.Ranks.{no_order, cell_at, first_of, Marks, Limited};

use crate::PRICES;
use crate::cells::Cell;

// Two arrays and no map: a board is fixed memory, and a word of marks tells the next level of 64 cells at once. It has a bit for each
// of them, the first cell at the highest bit.
#[derive(Drop)]
pub struct SideCells {
    cells: [Cell; PRICES],
    marks: [u64; 4],
    ghost size: { length cells ≡ 256 },
    ghost words: { length marks ≡ 4 },
    ghost limited: { Limited cells },
    ghost marked: { Marks marks cells },
}

// The first word with a mark.
fn first_marked(words: &[u64]) -> Option<usize>
    ensures { result ≡ position (λ w. not (w == 0)) words.now }
{
    words.iter().position(|word| *word != 0)
}

impl SideCells {
    // A side with no level.
    pub fn new() -> Self
        ensures { result.cells ≡ replicate 256 no_order }
    {
        SideCells {
            cells: [Cell::default(); PRICES],
            marks: [0; 4],
        }
    }

    // The cell at a rank.
    pub fn get(&self, rank: u8) -> Cell
        ensures { result ≡ cell_at self.now.cells rank }
    {
        self.cells[usize::from(rank)]
    }

    // Stores a cell at a rank, and marks whether it holds a level.
    pub fn put(&mut self, rank: u8, cell: Cell)
        ensures { self.new.cells ≡ slice_set self.old.cells rank cell }
    {
        let rank = usize::from(rank);
        let was_empty = self.cells[rank].is_empty();
        self.cells[rank] = cell;
        if cell.is_empty() != was_empty {
            self.marks[rank / 64] ^= 1 << (63 - rank % 64);
        }
    }

    // The first rank, from a word of marks on, whose cell holds a level.
    fn first_from_word(&self, from: usize) -> Option<u8>
        requires { from ≤ 4 }
        ensures { result ≡ first_of (64 * from) (drop (64 * from) self.now.cells) }
    {
        let w = from + first_marked(&self.marks[from..])?;
        Some((64 * w + self.marks[w].leading_zeros() as usize) as u8)
    }

    // The first rank, from a rank on, whose cell holds a level.
    pub fn first_from(&self, from: u8) -> Option<u8>
        ensures { result ≡ first_of from (drop from self.now.cells) }
    {
        let from = usize::from(from);
        let w = from / 64;
        let rest = self.marks[w] & (u64::MAX >> (from % 64));
        if rest != 0 {
            return Some((64 * w + rest.leading_zeros() as usize) as u8);
        }
        self.first_from_word(w + 1)
    }
}
