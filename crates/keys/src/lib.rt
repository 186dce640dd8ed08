//! Keys: a number or a name, the reader's order, the lent tables that hold the keys of constants, and the search in the key order.
#![tactic(auto)]

ghost use Rattle.std.specs.Prelude.{◌≡◌};
ghost use Rattle.limits.specs.Metered.{answered};
ghost use Rattle.keys.specs.Key.{compare_keys, name_at, kind_at, payload_at, key_at, put_cells, put_name, key_of, seek_key};

use limits::{Meter, Stop};
use std::cmp::Ordering;

// A number, or the bytes of a name. The derived order is the reader's: numbers precede names; numbers go by value, names by bytes, a proper
// prefix first.
#[derive(Clone, Copy, Debug, PartialEq, Eq, PartialOrd, Ord)]
pub enum Key<'a> {
    Number(i32),
    Name(&'a [u8]),
}

// The name of a constant, a part of the lent name store, as 01 names it: at most 64 bytes, and what the store has of them.
pub fn name_at<'a>(names: &'a [u8], id: usize, len: usize) -> &'a [u8]
    ensures { result.now ≡ name_at names.now id len }
{
    let start = id.saturating_mul(sizes::NAME).min(names.len());
    let rest = &names[start..];
    &rest[..len.min(sizes::NAME).min(rest.len())]
}

// The first cell of a constant; 0 beyond the table.
pub fn kind_at(cells: &[u32], id: usize) -> u32
    ensures { result ≡ kind_at cells.now id }
{
    cells::cell_at(cells, id.saturating_mul(sizes::CONSTANT_ROW))
}

// The second: a number's cell, or the length of a name.
pub fn payload_at(cells: &[u32], id: usize) -> u32
    ensures { result ≡ payload_at cells.now id }
{
    cells::cell_at(
        cells,
        id.saturating_mul(sizes::CONSTANT_ROW).saturating_add(1),
    )
}

// The key of a constant.
pub fn key_at<'a>(names: &'a [u8], cells: &[u32], id: usize) -> Key<'a>
    ensures { key_of result ≡ key_at names.now cells.now id }
{
    let payload = payload_at(cells, id);
    if kind_at(cells, id) == 1 {
        Key::Number(cells::of_cell(payload))
    } else {
        Key::Name(name_at(names, id, payload as usize))
    }
}

// How the key of a constant stands to the one that is sought.
pub fn compare_at(names: &[u8], cells: &[u32], id: usize, key: Key<'_>) -> Ordering
    ensures { result ≡ compare_keys (key_at names.now cells.now id) (key_of key.entry) }
{
    key_at(names, cells, id).cmp(&key)
}

// Binary search among the first `count` ids of the key order, whose count stands in the header; one unit of work for each key that is looked at.
pub fn seek_key(
    names: &[u8],
    cells: &[u32],
    order: &[u32],
    count: usize,
    key: Key<'_>,
    meter: &mut Meter,
) -> Result<Result<usize, usize>, Stop>
    ensures { answered result meter.new ≡ seek_key names.now cells.now order.now count (key_of key.entry) meter.old }
{
    search::seek(
        count,
        |i| compare_at(names, cells, cells::cell_at(order, i) as usize, key),
        meter,
    )
}

// The two cells of a constant; beyond the table nothing is written.
pub fn put_cells(cells: &mut [u32], id: usize, kind: u32, payload: u32)
    ensures { cells.new ≡ put_cells cells.old id kind payload }
{
    let start = id.saturating_mul(sizes::CONSTANT_ROW);
    cells::put_cell(cells, start, kind);
    cells::put_cell(cells, start.saturating_add(1), payload);
}

// The bytes of a name at its place in the name store, as far as the store goes.
pub fn put_name(names: &mut [u8], id: usize, text: &[u8])
    ensures { names.new ≡ put_name names.old id text.now }
{
    let start = id.saturating_mul(sizes::NAME).min(names.len());
    let len = text.len().min(names.len() - start);
    for i in 0..len {
        names[start + i] = text[i];
    }
}
