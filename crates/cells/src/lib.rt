//! Cells of lent tables: a cell that may lie beyond its table, and numbers of 32 signed bits in unsigned cells. No crate has a heap: tables are
//! lent and have one size, and how many of their rows count stands beside them.
#![tactic(auto)]

ghost use Rattle.std.specs.Prelude.{◌≡◌, get_or, set};
ghost use Rattle.cells.specs.Cells.{to_cell, of_cell};

// A cell, or 0 beyond the table.
pub fn cell_at(cells: &[u32], i: usize) -> u32
    ensures { result ≡ get_or cells.now i 0 }
{
    cells.get(i).copied().unwrap_or(0)
}

// A cell beyond the table is not written. An index, since std's `get_mut` does not say what the slice ends as.
pub fn put_cell(cells: &mut [u32], i: usize, cell: u32)
    ensures { cells.new ≡ set cells.old i cell }
{
    if i < cells.len() {
        cells[i] = cell;
    }
}

// The same for a table of 64-bit words.
pub fn word_at(words: &[u64], i: usize) -> u64
    ensures { result ≡ get_or words.now i 0 }
{
    words.get(i).copied().unwrap_or(0)
}

pub fn put_word(words: &mut [u64], i: usize, word: u64)
    ensures { words.new ≡ set words.old i word }
{
    if i < words.len() {
        words[i] = word;
    }
}

// A number as its cell holds it: shifted up by 2^31.
pub fn to_cell(number: i32) -> u32
    ensures { result ≡ to_cell number }
{
    number.abs_diff(i32::MIN)
}

pub fn of_cell(cell: u32) -> i32
    ensures { result ≡ of_cell cell }
{
    i32::MIN.wrapping_add_unsigned(cell)
}
